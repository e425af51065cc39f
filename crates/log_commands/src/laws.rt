ghost use Rattle.std.specs.Prelude.{◌≡◌, ℕ, ◌≤◌, Bool, true, List, [], ◌++◌, None, Ok};
ghost use Rattle.std.specs.List.{All};
ghost use Rattle.dq_base.specs.Applying.{page_fault};
ghost use Rattle.log_commands.specs.Splitting.{can_split};
ghost use Rattle.dq_base.specs.declared.pages.NumberedPage.{NumberedPage};
ghost use Rattle.wire_words.specs.Items.{AreBytes};
ghost use Rattle.log_commands.specs.declared.command.Command.{Command};
ghost use Rattle.log_commands.specs.declared.command.Command.TheVariants.{OpenDb, Frames, Undo, Checkpoint};
ghost use Rattle.log_commands.specs.Numbers.{numbers_fit, HasLowNumbers};
ghost use Rattle.log_commands.specs.InRange.{AreInRange};
ghost use Rattle.log_commands.specs.Spelling.{Writes};
ghost use Rattle.log_commands.specs.Reading.{command_of};

/// A command is read exactly if the bytes represent it: what is read is encoded so, and what is encoded so is read.
pub fn commands_read_back()
    ensures spelled { (command : Command) (bytes : List ℕ) → AreBytes bytes → command_of bytes ≡ Ok command → Writes command bytes }
    ensures read { (command : Command) (bytes : List ℕ) → Writes command bytes → command_of bytes ≡ Ok command }
{}

/// Commands are prefix-free: if two are at the front of the same bytes, they are one and the same bytes follow. So no
/// encoding of a command is a proper front of another's.
pub fn commands_stand_apart()
    ensures same { (command other : Command) (bytes other_bytes rest other_rest : List ℕ) → Writes command bytes → Writes other other_bytes →
        bytes ++ rest ≡ other_bytes ++ other_rest → (command ≡ other) × (rest ≡ other_rest) }
    ensures prefix { (command other : Command) (bytes other_bytes rest : List ℕ) → Writes command bytes → Writes other other_bytes →
        bytes ++ rest ≡ other_bytes → rest ≡ [] }
{}

/// The test of a command's numbers says what their range is: only a Frames command has numbers that could be out of it,
/// and they are in range exactly if it has 1 to 64 pages that end the transaction or after which it continues. No page of a command that passes has a
/// number above 4,294,967,295.
pub fn numbers_are_in_range()
    ensures open_db { (name : List ℕ) → numbers_fit (OpenDb name) ≡ true }
    ensures undo { (tx : ℕ) → numbers_fit (Undo tx) ≡ true }
    ensures checkpoint { (name : List ℕ) → numbers_fit (Checkpoint name) ≡ true }
    ensures sound { (name : List ℕ) (tx truncate : ℕ) (commit : Bool) (pages : List NumberedPage) →
        numbers_fit (Frames name tx truncate commit pages) ≡ true → AreInRange truncate commit pages }
    ensures complete { (name : List ℕ) (tx truncate : ℕ) (commit : Bool) (pages : List NumberedPage) →
        AreInRange truncate commit pages → numbers_fit (Frames name tx truncate commit pages) ≡ true }
    ensures low { (command : Command) → numbers_fit command ≡ true → HasLowNumbers command }
{}

/// A set that can be applied may be split, if none of its numbers is above 4,294,967,295.
pub fn sets_that_apply_can_be_split()
    ensures { (pages : List NumberedPage) → page_fault pages ≡ None → All (λ p. p.number ≤ 4294967295) pages → can_split pages ≡ true }
{}
