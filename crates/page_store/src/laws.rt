ghost use Rattle.std.specs.Prelude.{ℕ, List};
ghost use Rattle.dq_base.specs.declared.images.Image.{Image};
ghost use Rattle.page_store.specs.Store.{fresh_store, IsLive};
ghost use Rattle.page_store.specs.Calls.{Call, run, ShowsImagePinned};

/// After any list of commits, pins, releases and checkpoints of a store, a live mark shows the image that was newest when
/// it was pinned: at the pin that stands, after which no call pinned or released the mark. A law: the function does nothing.
pub fn live_mark_shows_image_pinned()
    ensures { (image : Image) (calls : List Call) (id : ℕ) → IsLive (run (fresh_store image) calls) id → ShowsImagePinned (fresh_store image) calls id }
{}
