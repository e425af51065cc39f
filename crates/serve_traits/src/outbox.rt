/// What takes the output of a node, step after step.
///
/// What it was given is described by those that know it; clauses on content hold if it is known.
pub trait Outbox<T> {
    ghost use Rattle.std.specs.Prelude.{List, [], ◌∷◌, Option};
    ghost use Rattle.serve_traits.specs.Told.{Gains};

    /// What the steps said, in order, if it is known.
    ghost said: { Self → Option (List T) };

    /// Takes what a step says. It may get lost on its way, which the outbox has to make good or to tell.
    fn put(&mut self, outs: T)
        ensures { Gains (said self.old) (said self.new) (outs ∷ []) };
}
