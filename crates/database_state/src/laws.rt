ghost use Rattle.std.specs.Prelude.{◌≡◌, ℕ, ◌<◌, ◌≤◌, List, [], ◌∷◌, ◌++◌, length, fold, sum_by, Ok, None, Some};
ghost use Rattle.std.specs.List.{AllByRecursion, Contains};
ghost use Rattle.database_state.specs.Stated.{greatest_stated, length_of_files, IsSpelled, names_opened};
ghost use Rattle.dq_base.specs.declared.images.Image.{Image};
ghost use Rattle.dq_base.specs.declared.pages.PageSet.{PageSet};
ghost use Rattle.dq_base.specs.Applying.{applied, page_fault};
ghost use Rattle.dq_base.specs.Images.{page_at, page_count};
ghost use Rattle.database_state.specs.Logs.{IsShort, all_pages};
ghost use Rattle.log_commands.specs.declared.command.Command.{Command};
ghost use Rattle.log_commands.specs.Splitting.{split};
ghost use Rattle.database_state.specs.declared.database.Database.{Database};
ghost use Rattle.database_state.specs.Files.{Content, empty_image, changed, applied_set, NonePending, files};
ghost use Rattle.database_state.specs.Files as of_files;
ghost use Rattle.wire_words.specs.Items.{AreBytes};
ghost use Rattle.database_state.specs.Snapshot.{IsSnapshot};
ghost use Rattle.database_state.specs.Restoring.{snapshot_of, restored};
ghost use Rattle.database_state.specs.AsMap.{AreInOrder, Does};
ghost use Rattle.database_state.specs.Databases.{contents_of, act};
ghost use Rattle.database_state.specs.ImageNumbers.{NumbersGoOn, NumbersStay};
ghost use Rattle.database_state.specs.Machines.{IsMachine};
ghost use Rattle.database_state.specs.Pins.{Pinning, with_pin, without_pin};

/// What a command does to databases under readers is what it does to the files and pending pages that these show. So a
/// state machine that was made by a list of commands shows the files of that list. A law: the function does nothing.
pub fn machines_show_files()
    ensures act { (databases : List Database) (command : Command) → contents_of (act databases command) ≡ of_files.act (contents_of databases) command }
    ensures fold { (commands : List Command) → contents_of (fold act [] commands) ≡ files commands }
{}

/// The commands of a split set, done in order, apply the whole set and leave nothing pending, wherever nothing of its
/// transaction was pending under its name; if the set can't be applied, the image stays.
pub fn split_sets_apply_whole()
    ensures { (name : List ℕ) (set : PageSet) (contents : List Content) → NonePending name set.tx contents →
        fold of_files.act contents (split name set) ≡ changed name (applied_set set) contents }
{}

/// The two files of each database that commands make are together at most as long as a sizes page states with which one of
/// the commands commits for its name. The commands are any that bytes represent, so this holds after each front of a list.
pub fn files_are_no_longer_than_stated()
    ensures { (commands : List Command) → AllByRecursion IsSpelled commands →
        AllByRecursion (λ content. length_of_files content.image ≤ greatest_stated commands content.name) (files commands) }
{}

/// The databases that commands make stand strictly ascending by the bytes of their names. Seen as a map from names, OpenDb
/// and Frames change the database of their name and no other, Undo drops what is pending for its transaction and nothing
/// else, and Checkpoint changes nothing.
pub fn commands_do_what_they_say()
    ensures in_order { (commands : List Command) → AreInOrder (files commands) }
    ensures does { (commands : List Command) (command : Command) → Does command (files commands) (files (commands ++ command ∷ [])) }
{}

/// If the greatest lengths that a list of commands states for its names are together within a limit, the files of all
/// databases are together within it after every front of the list. The names are any that hold each name that the list opens.
pub fn limit_bounds_files()
    ensures { (front later : List Command) (names : List (List ℕ)) (limit : ℕ) → AllByRecursion IsSpelled (front ++ later) →
        AllByRecursion (λ name. Contains names name) (names_opened (front ++ later)) →
        sum_by (greatest_stated (front ++ later)) names ≤ limit →
        sum_by (λ (content : Content). length_of_files content.image) (files front) ≤ limit }
{}

/// Bytes are read as a state machine exactly if they are its snapshot: what is read is encoded so, and what is encoded so is
/// read. What a state machine that was read shows is what its snapshot says.
pub fn snapshots_read_back()
    ensures spelled { (contents : List Content) (bytes : List ℕ) → AreBytes bytes → snapshot_of bytes ≡ Ok contents → IsSnapshot contents bytes }
    ensures read { (contents : List Content) (bytes : List ℕ) → IsSnapshot contents bytes → snapshot_of bytes ≡ Ok contents }
    ensures shown { (contents : List Content) → contents_of (restored contents) ≡ contents }
{}

/// The pages that a snapshot holds of an image are as many as its page count says, and each is the image's page of its
/// number. They are a set without a fault, so their numbers ascend and the sizes page is the last; and two empty files
/// become the image by them.
pub fn images_are_their_pages()
    ensures count { (image : Image) → length (all_pages image) ≡ page_count image }
    ensures each { (image : Image) → AllByRecursion (λ p. page_at image p.number ≡ Some p.page) (all_pages image) }
    ensures sound { (image : Image) → IsShort image → page_fault (all_pages image) ≡ None }
    ensures whole { (image : Image) → IsShort image → applied empty_image (all_pages image) ≡ image }
{}

/// A number represents one image, while the state machine is one and the same. After a command each database is one of those
/// before, with the same number and the same newest image or with more commits, or it is new, and its place in the order of
/// opening is after theirs. A pin and a release change no number and no newest image. No two databases of a state machine are of
/// one place, and each place is below their number.
pub fn numbers_stand_for_images()
    ensures act { (databases : List Database) (command : Command) → NumbersGoOn databases (act databases command) }
    ensures pin { (databases : List Database) (name : List ℕ) (mark : ℕ) →
        NumbersGoOn databases (with_pin name mark databases) × NumbersStay databases (with_pin name mark databases) }
    ensures release { (databases : List Database) (pin : Pinning) →
        NumbersGoOn databases (without_pin pin databases) × NumbersStay databases (without_pin pin databases) }
    ensures apart { (databases : List Database) (a b : Database) → IsMachine databases →
        Contains databases a → Contains databases b → a.place ≡ b.place → a ≡ b }
    ensures below { (databases : List Database) (a : Database) → IsMachine databases → Contains databases a → a.place < length databases }
{}
