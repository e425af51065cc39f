//! That no number represents two images, whatever happens.

ghost use Rattle.std.specs.Prelude.{◌≡◌, ◌+◌, ℕ, [], ◌∷◌, List, Option, Some, All, map};
ghost use Rattle.dq_base.specs.declared.image_number.ImageNumber.{ImageNumber};
ghost use Rattle.dq_base.specs.declared.image_number.ImageNumber.TheVariants.{Working};
ghost use Rattle.dq_base.specs.declared.images.Image.{Image};
ghost use Rattle.sql_engine.specs.Known.{Known, MayRun};
ghost use Rattle.database_state.specs.declared.database.Database.{Database};
ghost use Rattle.database_state.specs.ImageNumbers.{Numbered, numbered, NumbersGoOn};
ghost use Rattle.database_state.specs.Machines.{IsMachine};
ghost use Rattle.session_statements.specs.Agreeing.{Agree, Stands};
ghost use Rattle.session_statements.specs.Learning.{IsLearnt};

/// A law: if no number represents two images, neither for an engine, nor for the working images of transactions, nor for the
/// databases, a statement may run over one of these under its number and the next number that is drawn. After the run it is so
/// still, with the image that the statement left under the number that was drawn; and if an engine forgets, if a
/// transaction begins over one of these images, and if a command is done.
pub fn numbers_stand_for_one_image()
    ensures runs { (known works : List Known) (next : ℕ) (bases : List Numbered) (number : ImageNumber) (image : Image) →
        Agree known works next bases → Stands works bases number image → MayRun known image (record { before = number; after = next }) }
    ensures ran { (known now works : List Known) (next : ℕ) (bases : List Numbered) (number : Option ImageNumber) (image left : Image) →
        Agree known works next bases → ((n : ImageNumber) → number ≡ Some n → Stands works bases n image) →
        All (IsLearnt known number image next left) now →
        Agree now (record { number = Working next; image = left } ∷ works) (next + 1) bases }
    ensures forgotten { (known works : List Known) (next : ℕ) (bases : List Numbered) → Agree known works next bases → Agree [] works next bases }
    ensures begun { (known works : List Known) (next : ℕ) (bases : List Numbered) (number : ImageNumber) (image : Image) →
        Agree known works next bases → Stands works bases number image →
        Agree known (record { number = number; image = image } ∷ works) next bases }
    ensures acted { (known works : List Known) (next : ℕ) (before after : List Database) → Agree known works next (map numbered before) →
        NumbersGoOn before after → IsMachine before → IsMachine after → Agree known works next (map numbered after) }
{}
