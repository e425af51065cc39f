//! Writing the body of a response.

ghost use Rattle.std.specs.Prelude.{◌≡◌, ◌++◌, ◌%◌, ◌<◌, ◌^◌, [], ◌∷◌, length, OnOk};
ghost use Rattle.std.specs.List.{flat_map};
ghost use Rattle.wire_words.specs.Items.{HasNoNul};
ghost use Rattle.wire_msgs.specs.Fields.{Pair, Word, Text, Rest, HaveSpellings, AllFit, body_bytes};
ghost use Rattle.wire_msgs.specs.Responses.{optional, server_fields, file_fields, response_line, IsWritable};

use crate::response::{File, NodeInfo, Response};
use crate::writing_items::{write_pair, write_word, write_word_text, write_words};
use std::alloc::AllocError;
use wire_words::{WireBytes, WireText, Writer};

// A number that may be there.
fn write_optional(out: &mut Writer, number: Option<u64>) -> Result<(), AllocError>
    ensures bytes { OnOk result (out.new ≡ out.old ++ body_bytes (optional number)) }
    ensures fit { OnOk result (AllFit (optional number)) }
{
    match number {
        Some(number) => out.word(number),
        None => Ok(()),
    }
}

// A server of a list.
fn server(out: &mut Writer, server: &NodeInfo) -> Result<(), AllocError>
    requires { HasNoNul server.now.address }
    ensures bytes { OnOk result (out.new ≡ out.old ++ body_bytes (server_fields server.now)) }
    ensures fit { OnOk result (AllFit (server_fields server.now)) }
{
    out.word(server.id)?;
    out.text(server.address.as_str())?;
    write_optional(out, server.role)
}

// The servers of a list.
fn servers(out: &mut Writer, servers: &[NodeInfo]) -> Result<(), AllocError>
    requires { HaveSpellings (flat_map server_fields servers.now) }
    ensures bytes { OnOk result (out.new ≡ out.old ++ body_bytes (flat_map server_fields servers.now)) }
    ensures fit { OnOk result (AllFit (flat_map server_fields servers.now)) }
{
    for item in servers {
        server(out, item)?;
    }
    Ok(())
}

// The body of SERVERS.
fn counted_servers(out: &mut Writer, list: &[NodeInfo]) -> Result<(), AllocError>
    requires { HaveSpellings (flat_map server_fields list.now) }
    ensures bytes { OnOk result (out.new ≡ out.old ++ body_bytes (Word (length list.now) ∷ flat_map server_fields list.now)) }
    ensures fit { OnOk result (AllFit (Word (length list.now) ∷ flat_map server_fields list.now)) }
{
    out.word(list.len() as u64)?;
    servers(out, list)
}

// A file.
fn file(out: &mut Writer, file: &File) -> Result<(), AllocError>
    requires { HasNoNul file.now.name }
    ensures bytes { OnOk result (out.new ≡ out.old ++ body_bytes (file_fields file.now)) }
    ensures fit { OnOk result (AllFit (file_fields file.now)) }
{
    out.text(file.name.as_str())?;
    out.blob(file.content.as_slice())
}

// The files of a list.
fn files(out: &mut Writer, files: &[File]) -> Result<(), AllocError>
    requires { HaveSpellings (flat_map file_fields files.now) }
    ensures bytes { OnOk result (out.new ≡ out.old ++ body_bytes (flat_map file_fields files.now)) }
    ensures fit { OnOk result (AllFit (flat_map file_fields files.now)) }
{
    for item in files {
        file(out, item)?;
    }
    Ok(())
}

// The body of FILES.
fn counted_files(out: &mut Writer, list: &[File]) -> Result<(), AllocError>
    requires { HaveSpellings (flat_map file_fields list.now) }
    ensures bytes { OnOk result (out.new ≡ out.old ++ body_bytes (Word (length list.now) ∷ flat_map file_fields list.now)) }
    ensures fit { OnOk result (AllFit (Word (length list.now) ∷ flat_map file_fields list.now)) }
{
    out.word(list.len() as u64)?;
    files(out, list)
}

// The body of STMT in schema 0.
fn pair_word(out: &mut Writer, db: u32, id: u32, params: u64) -> Result<(), AllocError>
    ensures bytes { OnOk result (out.new ≡ out.old ++ body_bytes (Pair db id ∷ Word params ∷ [])) }
    ensures fit { OnOk result (AllFit (Pair db id ∷ Word params ∷ [])) }
{
    write_pair(out, db, id)?;
    write_word(out, params)
}

// The body of STMT.
fn stmt(
    out: &mut Writer,
    db: u32,
    id: u32,
    params: u64,
    tail: Option<u64>,
) -> Result<(), AllocError>
    ensures bytes { OnOk result (out.new ≡ out.old ++ body_bytes (Pair db id ∷ Word params ∷ optional tail)) }
    ensures fit { OnOk result (AllFit (Pair db id ∷ Word params ∷ optional tail)) }
{
    pair_word(out, db, id, params)?;
    write_optional(out, tail)
}

// The body of ROWS.
fn rest(out: &mut Writer, body: &WireBytes) -> Result<(), AllocError>
    requires { length body.now % 8 ≡ 0 }
    ensures bytes { OnOk result (out.new ≡ out.old ++ body_bytes (Rest body.now ∷ [])) }
    ensures fit { OnOk result (AllFit (Rest body.now ∷ [])) }
{
    out.raw(body.as_slice())
}

/// Appends the body of a response.
pub(crate) fn write_fields(out: &mut Writer, response: &Response) -> Result<(), AllocError>
    requires { IsWritable response.now }
    ensures bytes { OnOk result (out.new ≡ out.old ++ body_bytes (response_line response.now).fields) }
    ensures fit { OnOk result (AllFit (response_line response.now).fields) }
{
    match response {
        Response::Failure { code, message } => write_word_text(out, *code, message),
        Response::Server { id, address } => write_word_text(out, *id, address),
        Response::Welcome { heartbeat_timeout } => write_word(out, *heartbeat_timeout),
        Response::Servers { servers } => counted_servers(out, servers.as_slice()),
        Response::Db { id } => write_pair(out, *id, 0),
        Response::Stmt {
            db,
            id,
            params,
            tail,
        } => stmt(out, *db, *id, *params, *tail),
        Response::Result {
            last_insert_id,
            rows_affected,
        } => write_words(out, *last_insert_id, *rows_affected),
        Response::Rows { body } => rest(out, body),
        Response::Empty => write_word(out, 0),
        Response::Files { files } => counted_files(out, files.as_slice()),
        Response::Metadata {
            failure_domain,
            weight,
        } => write_words(out, *failure_domain, *weight),
    }
}
