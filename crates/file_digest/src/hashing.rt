ghost use Rattle.std.specs.Prelude.{◌≡◌, ◌+◌, ◌*◌, ◌<◌, ◌≤◌, ◌^◌, ◌++◌, ℕ, List, length, take, drop};
ghost use Rattle.sha2.specs.Hashers.{Holds256};
ghost use Rattle.wire_words.specs.Items.{word, text};
ghost use Rattle.page_store.specs.Store.{newest_image};
ghost use Rattle.database_state.specs.Databases.{content_of, contents_of};
ghost use Rattle.file_digest.specs.Pages.{bytes_of};
ghost use Rattle.file_digest.specs.Digest.{file_message, message_of, digest};

use crate::file::File;
use byteorder::{ByteOrder, LittleEndian};
use database_state::Database;
use dq_base::PAGE_SIZE;
use sha2::{Digest, Sha256};

const ZEROS: [u8; 8] = [0; 8];

/// A number of 64 bits, little-endian.
fn word(value: u64) -> [u8; 8]
    ensures { result ≡ word value }
{
    let mut bytes = [0; 8];
    LittleEndian::write_u64(&mut bytes, value);
    bytes
}

/// The NUL that ends a text of these bytes, and zeros up to a whole word.
fn text_end(bytes: &[u8]) -> &[u8]
    ensures { bytes.now ++ result.now ≡ text bytes.now }
{
    &ZEROS[bytes.len() % 8..]
}

/// Adds a text, as the wire encodes it, to the message.
fn add_text(hasher: &mut Sha256, bytes: &[u8])
    ensures { (m : List ℕ) → Holds256 hasher.old m → Holds256 hasher.new (m ++ text bytes.now) }
{
    hasher.update(bytes);
    hasher.update(text_end(bytes));
}

/// Adds the first bytes of the page at a place of a file to the message. They are some, and no more than the file has.
fn add_page(hasher: &mut Sha256, database: &Database, file: File, place: usize, count: usize)
    requires some { 0 < count }
    requires few { count ≤ 4096 }
    requires low { place < 2 ^ 60 }
    requires within { 4096 * place + count ≤ length (bytes_of file (newest_image database.now.store)) }
    ensures { (m : List ℕ) → Holds256 hasher.old m →
        Holds256 hasher.new (m ++ take count (drop (4096 * place) (bytes_of file (newest_image database.now.store)))) }
{
    let page = database.newest_page(file.page_number(place)).unwrap();
    let bytes = page.bytes();
    hasher.update(&bytes[..count]);
}

/// Adds the bytes of a file, of which there are this many, to the message.
fn add_pages(hasher: &mut Sha256, database: &Database, file: File, len: usize)
    requires { len ≡ length (bytes_of file (newest_image database.now.store)) }
    ensures { (m : List ℕ) → Holds256 hasher.old m → Holds256 hasher.new (m ++ bytes_of file (newest_image database.now.store)) }
{
    for place in 0..len.div_ceil(PAGE_SIZE) {
        let count = PAGE_SIZE.min(len - place * PAGE_SIZE);
        add_page(hasher, database, file, place, count);
    }
}

/// Adds the length of a file in bytes and the file to the message.
fn add_file(hasher: &mut Sha256, database: &Database, file: File)
    ensures { (m : List ℕ) → Holds256 hasher.old m → Holds256 hasher.new (m ++ file_message (bytes_of file (newest_image database.now.store))) }
{
    let len = file.length_in(database.lengths());
    hasher.update(word(len as u64));
    add_pages(hasher, database, file, len);
}

/// Adds a database to the message.
#[tactic(auto, unfolding(crate::specs::Digest::message_of))]
fn add_database(hasher: &mut Sha256, database: &Database)
    ensures { (m : List ℕ) → Holds256 hasher.old m → Holds256 hasher.new (m ++ message_of (content_of database.now)) }
{
    add_text(hasher, database.name().as_str().as_bytes());
    add_file(hasher, database, File::Main);
    add_file(hasher, database, File::Side);
}

/// The digest of the newest files of databases, in their order: the SHA-256 of each one's name as a text of the wire, and
/// of its main file and its side file, each after the word of its length. Goes over the files page by page, and costs a
/// look-up and the copy of one page for each.
#[tactic(auto, unfolding(crate::specs::Digest::digest))]
pub fn digest(databases: &[Database]) -> [u8; 32]
    ensures { result ≡ digest (contents_of databases.now) }
{
    let mut hasher = Sha256::new();
    for database in databases {
        add_database(&mut hasher, database);
    }
    hasher.finalize()
}
