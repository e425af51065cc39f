//! Writing the body of a request.

ghost use Rattle.std.specs.Prelude.{◌≡◌, ◌++◌, [], ◌∷◌, OnOk};
ghost use Rattle.std.specs.List.{AllByRecursion};
ghost use Rattle.wire_words.specs.Values.{IsWritable as IsWritableValue, AreWritable, IsInRange};
ghost use Rattle.wire_words.specs.Items.{HasNoNul};
ghost use Rattle.wire_msgs.specs.Fields.{Params, Pair, Word, AnyWord, Text, Fits, HasSpelling, AllFit, body_bytes, params_bytes};
ghost use Rattle.wire_msgs.specs.Requests.{request_line, IsWritableRequest};

use crate::request::Request;
use crate::writing_items::{write_pair, write_text, write_word, write_word_text, write_words};
use std::alloc::AllocError;
use wire_words::{Value, WireText, Writer};

// What a value holds is in range, since it is there.
fn in_range(value: &Value)
    requires { IsWritableValue value.now }
    ensures { IsInRange value.now }
{
    match value {
        Value::Integer(number) => {
            let _number = *number;
        }
        Value::Text(text) => {
            text.as_str();
        }
        Value::Blob(bytes) => {
            bytes.as_slice().len();
        }
        Value::Null => {}
    }
}

// What values hold is in range, since they are there.
fn all_in_range(values: &[Value])
    requires { AreWritable values.now }
    ensures { AllByRecursion IsInRange values.now }
{
    for value in values {
        in_range(value);
    }
}

// Parameters: no tuple if there are none.
fn params(out: &mut Writer, wide: bool, values: &[Value]) -> Result<(), AllocError>
    requires { HasSpelling (Params wide values.now) }
    ensures bytes { OnOk result (out.new ≡ out.old ++ params_bytes wide values.now) }
    ensures fit { OnOk result (Fits (Params wide values.now)) }
{
    all_in_range(values);
    if values.is_empty() {
        return Ok(());
    }
    if wide {
        out.params_wide(values)
    } else {
        out.params(values)
    }
}

// The body of OPEN.
fn open(out: &mut Writer, name: &WireText, flags: u64, vfs: &WireText) -> Result<(), AllocError>
    requires name { HasNoNul name.now }
    requires vfs { HasNoNul vfs.now }
    ensures bytes { OnOk result (out.new ≡ out.old ++ body_bytes (Text name.now ∷ Word flags ∷ Text vfs.now ∷ [])) }
    ensures fit { OnOk result (AllFit (Text name.now ∷ Word flags ∷ Text vfs.now ∷ [])) }
{
    out.text(name.as_str())?;
    out.word(flags)?;
    out.text(vfs.as_str())
}

// The body of EXEC and QUERY.
fn pair_params(
    out: &mut Writer,
    db: u32,
    statement: u32,
    wide: bool,
    values: &[Value],
) -> Result<(), AllocError>
    requires { HasSpelling (Params wide values.now) }
    ensures bytes { OnOk result (out.new ≡ out.old ++ body_bytes (Pair db statement ∷ Params wide values.now ∷ [])) }
    ensures fit { OnOk result (AllFit (Pair db statement ∷ Params wide values.now ∷ [])) }
{
    out.pair(db, statement)?;
    params(out, wide, values)
}

// The body of EXEC_SQL and QUERY_SQL.
fn word_text_params(
    out: &mut Writer,
    db: u64,
    sql: &WireText,
    wide: bool,
    values: &[Value],
) -> Result<(), AllocError>
    requires text { HasNoNul sql.now }
    requires params { HasSpelling (Params wide values.now) }
    ensures bytes { OnOk result (out.new ≡ out.old ++ body_bytes (Word db ∷ Text sql.now ∷ Params wide values.now ∷ [])) }
    ensures fit { OnOk result (AllFit (Word db ∷ Text sql.now ∷ Params wide values.now ∷ [])) }
{
    out.word(db)?;
    out.text(sql.as_str())?;
    params(out, wide, values)
}

// The body of LEADER.
fn any_word(out: &mut Writer) -> Result<(), AllocError>
    ensures bytes { OnOk result (out.new ≡ out.old ++ body_bytes (AnyWord ∷ [])) }
{
    out.word(0)
}

/// Appends the body of a request.
pub(crate) fn write_fields(out: &mut Writer, request: &Request) -> Result<(), AllocError>
    requires { IsWritableRequest request.now }
    ensures bytes { OnOk result (out.new ≡ out.old ++ body_bytes (request_line request.now).fields) }
    ensures fit { OnOk result (AllFit (request_line request.now).fields) }
{
    match request {
        Request::Leader => any_word(out),
        Request::Client { id } => write_word(out, *id),
        Request::Open { name, flags, vfs } => open(out, name, *flags, vfs),
        Request::Prepare { db, sql, .. } => write_word_text(out, *db, sql),
        Request::Exec {
            db,
            statement,
            params,
            wide,
        } => pair_params(out, *db, *statement, *wide, params.as_slice()),
        Request::Query {
            db,
            statement,
            params,
            wide,
        } => pair_params(out, *db, *statement, *wide, params.as_slice()),
        Request::Finalize { db, statement } => write_pair(out, *db, *statement),
        Request::ExecSql {
            db,
            sql,
            params,
            wide,
        } => word_text_params(out, *db, sql, *wide, params.as_slice()),
        Request::QuerySql {
            db,
            sql,
            params,
            wide,
        } => word_text_params(out, *db, sql, *wide, params.as_slice()),
        Request::Interrupt { db } => write_word(out, *db),
        Request::Connect { id, address } => write_word_text(out, *id, address),
        Request::Add { id, address } => write_word_text(out, *id, address),
        Request::Assign { id, role } => write_words(out, *id, *role),
        Request::Remove { id } => write_word(out, *id),
        Request::Dump { name } => write_text(out, name),
        Request::Cluster { format } => write_word(out, *format),
        Request::Transfer { id } => write_word(out, *id),
        Request::Describe { format } => write_word(out, *format),
        Request::Weight { weight } => write_word(out, *weight),
    }
}
