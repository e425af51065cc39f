ghost use Rattle.std.specs.Prelude.{◌≡◌, ◌↔◌};
ghost use Rattle.sql_engine.specs.Runs.{Chains, Splits, LeadsOn};
ghost use Rattle.sql_engine.specs.CellTexts.{Says, statement_of};

use crate::engine::Engine;

/// A law: statements that ran from one image to another, and others that ran on from there, ran one after the other; and
/// wherever statements that ran are cut in two, both parts ran.
#[tactic(auto, using(crate::proofs::Chaining::chains, crate::proofs::Chaining::splits))]
pub fn runs_are_chained<E: Engine>()
    ensures chains { (kind : _) → Chains (E.meaning kind) }
    ensures splits { (kind : _) → Splits (E.meaning kind) }
{}

/// A law: the pages of an answer, applied to the image, make the image that the statement leaves.
pub fn answers_lead_on<E: Engine>()
    ensures { (kind : _) → LeadsOn (E.meaning kind) }
{}

/// A law: a text is a statement of cells exactly if it is written so, with numbers in range. So it is one statement at
/// most.
pub fn texts_say_statements()
    ensures { (text c : _) → statement_of text ≡ Some c ↔ Says text c }
{}
