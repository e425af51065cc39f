ghost use Rattle.std.specs.Prelude.{◌≡◌, ◌≢◌, ◌≤◌, ◌<◌, ◌^◌, length, None};
ghost use Rattle.dq_base.specs.declared.images.Image.{Image};
ghost use Rattle.dq_base.specs.Changes.{changed};
ghost use Rattle.dq_base.specs.Applying.{applied, longest_file, page_fault};

/// A law: applying the change from one image to another gives the other, wherever the two differ and the other's files
/// are shorter than 2^64 bytes.
pub fn change_gives_image()
    ensures { (a b : Image) → a ≢ b → length b.main < 2 ^ 64 → length b.side < 2 ^ 64 → applied a (changed a b) ≡ b }
{}

/// A law: a change is a set of pages without a fault, wherever the two images differ and the files of the later one are
/// at most 67,108,864 bytes long.
pub fn change_has_no_fault()
    ensures { (a b : Image) → a ≢ b → length b.main ≤ longest_file → length b.side ≤ longest_file → page_fault (changed a b) ≡ None }
{}
