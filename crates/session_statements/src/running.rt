//! Statements one after another, by an engine.

ghost use Rattle.std.specs.Prelude.{◌≡◌, ◌<◌, true, false, None, Some, [], ◌∷◌, ◌++◌, length, All, Contains, IsSome, IfOk, IfErr};
ghost use Rattle.dq_base.specs.Applying.{applied, page_fault};
ghost use Rattle.sql_engine.specs.Known.{MayRun};
ghost use Rattle.sql_engine.specs.Meanings.{Answers, CountsOpenings, Faults, IsCutBy, Stays, Tells};
ghost use Rattle.sql_scan.specs.Places.{StandsIn};
ghost use Rattle.session_spec.specs.Engines as rules;
ghost use Rattle.session_statements.specs.declared.ending.Ending.TheVariants as endings;
ghost use Rattle.session_spec.specs.Statements.{prepared_from};
ghost use Rattle.session_statements.specs.Texts.{assigned, wants};
ghost use Rattle.session_spec.specs.Touched.{ListsAll, numbers_of};
ghost use Rattle.session_statements.specs.Calls.{call_on};
ghost use Rattle.session_statements.specs.Running as running;
ghost use Rattle.session_statements.specs.Running.{AdvancedTo, CameTo, RanTo, Stepped};
ghost use Rattle.session_statements.specs.Learning.{IsLearnt, left_by};
ghost use Rattle.image_diff.specs.Undoing.{IsChange, all_undone};

use crate::ending::{AllRan, Ending};
use crate::options::RunOptions;
use dq_base::{Image, ImageNumber, Items, NumberedPage, PageSet, set_lengths};
use image_diff::{TouchedImage, Undo, add_numbers, apply_noted, put_back_all};
use sql_engine::{Engine, EngineFault, ImageNumbers, StatementResult};
use sql_scan::StatementSpan;
use std::alloc::{AllocError, Global};
use wire_words::Value;

/// The text of a statement.
fn piece_text<'a>(text: &'a str, piece: &StatementSpan) -> &'a str
    requires { StandsIn text.now piece.now }
    ensures { result.now ≡ (prepared_from text.now piece.now).text }
{
    &text[piece.start as usize..piece.end as usize]
}

/// Whether applying takes the pages; none are always taken.
#[tactic(auto, unfolding(session_spec::specs::Engines::takes))]
pub fn takes(pages: &[NumberedPage]) -> bool
    ensures { result ≡ rules.takes pages.now }
{
    pages.is_empty() || set_lengths(pages).is_ok()
}

/// What comes of an answer to the only statement.
fn ending_of(ran: StatementResult) -> Ending
    ensures ending { result ≡ running.ending_of ran }
    ensures opened { running.ends_unopened result ≡ false }
    ensures uncut { running.ends_cut result ≡ false }
{
    if takes(ran.after.pages.as_slice()) {
        Ending::Ended(AllRan {
            together: None,
            answer: ran,
        })
    } else {
        Ending::TooLarge(ran)
    }
}

/// Runs one statement over an image under its number and that of the image after. Copies nothing of the image, and allocates
/// nothing beside the engine's.
pub fn run_one<E: Engine>(
    engine: &mut E,
    image: &Image,
    numbers: ImageNumbers,
    text: &str,
    params: &[Value],
    options: RunOptions,
) -> Ending
    requires { MayRun (E.known engine.old) image.now numbers }
    ensures stays { Stays (E.kind engine.old) (E.kind engine.new) (E.refused_openings engine.old) (E.refused_openings engine.new) }
    ensures unopened { running.ends_unopened result ≡ true → E.refused_openings engine.old < E.refused_openings engine.new }
    // Nothing is interrupted without a limit.
    ensures cut { running.ends_cut result ≡ true → IsSome options.limit }
    ensures learnt { All (IsLearnt (E.known engine.old) (Some numbers.before) image.now numbers.after (left_by image.now result)) (E.known engine.new) }
    ensures ran { RanTo (call_on E.meaning E.kind E.told engine.old engine.new) options.tx image.now
        (record { text = text.now; params = params.now } ∷ []) result }
{
    match engine.run(image, numbers, text, params, options.tx, options.limit) {
        Ok(ran) => ending_of(ran),
        Err(fault) => Ending::Stopped(fault),
    }
}

/// Runs one statement over an image that has no number: the engine forgets all numbers before and after.
pub fn run_unnumbered<E: Engine>(
    engine: &mut E,
    image: &Image,
    text: &str,
    params: &[Value],
    options: RunOptions,
) -> Ending
    ensures stays { Stays (E.kind engine.old) (E.kind engine.new) (E.refused_openings engine.old) (E.refused_openings engine.new) }
    ensures unopened { running.ends_unopened result ≡ true → E.refused_openings engine.old < E.refused_openings engine.new }
    // Nothing is interrupted without a limit.
    ensures cut { running.ends_cut result ≡ true → IsSome options.limit }
    ensures known { E.known engine.new ≡ [] }
    ensures ran { RanTo (call_on E.meaning E.kind E.told engine.old engine.new) options.tx image.now
        (record { text = text.now; params = params.now } ∷ []) result }
{
    match run_forgetting(engine, image, text, params, options) {
        Ok(ran) => ending_of(ran),
        Err(fault) => Ending::Stopped(fault),
    }
}

/// Runs one statement by an engine that forgets all numbers before and after.
fn run_forgetting<E: Engine>(
    engine: &mut E,
    image: &Image,
    text: &str,
    params: &[Value],
    options: RunOptions,
) -> Result<StatementResult, EngineFault>
    ensures answers { IfOk result (Answers (E.meaning (E.kind engine.old)) image.now (record { text = text.now; params = params.now }) options.tx) }
    ensures faults { IfErr result (Faults (E.meaning (E.kind engine.old)) (E.kind engine.old) image.now (record { text = text.now; params = params.now })) }
    ensures stays { Stays (E.kind engine.old) (E.kind engine.new) (E.refused_openings engine.old) (E.refused_openings engine.new) }
    ensures unopened { CountsOpenings (E.refused_openings engine.old) (E.refused_openings engine.new) result }
    ensures cut { IsCutBy options.limit result }
    ensures known { E.known engine.new ≡ [] }
    ensures told { Tells result (E.told engine.old) (E.told engine.new) }
{
    engine.forget();
    let numbers = ImageNumbers {
        before: ImageNumber::Working(0),
        after: 1,
    };
    let answer = engine.run(image, numbers, text, params, options.tx, options.limit);
    engine.forget();
    answer
}

/// Where running several statements stands, which work on an image in place.
#[derive(Drop)]
struct Progress {
    /// Where it takes memory from.
    alloc: Global,
    /// What puts the image back, the last statement's last.
    undoes: Vec<Undo>,
    /// The numbers above 1 of the pages that they changed.
    touched: Vec<u64>,
    /// The answer of the last one.
    answer: StatementResult,
}

/// The outcome of running several statements, before the image is put back.
#[derive(Drop)]
enum UnsettledRun {
    /// All ran, and led there.
    Through(TouchedImage),
    /// They ended before.
    Short(Ending),
}

impl Progress {
    /// Where nothing ran yet.
    fn new(alloc: Global) -> Progress
        ensures undoes { result.undoes.items ≡ [] }
        ensures touched { result.touched.items ≡ [] }
        ensures answer { result.answer ≡ rules.no_answer }
    {
        Progress {
            alloc,
            undoes: Vec::new(alloc),
            touched: Vec::new(alloc),
            answer: no_answer(alloc),
        }
    }

    /// Applies pages to the image, and notes what they touch and what puts it back; false if they can't be applied.
    fn apply(&mut self, image: &mut Image, pages: &[NumberedPage]) -> Result<bool, AllocError>
        requires change { IsChange image.old pages.now }
        ensures taken { IfOk result (λ taken. taken ≡ rules.takes pages.now) }
        ensures done { IfOk result (λ taken. taken ≡ true → image.new ≡ applied image.old pages.now) }
        ensures touched { IfOk result (λ taken. taken ≡ true → self.new.touched.items ≡ self.old.touched.items ++ numbers_of pages.now) }
        ensures kept { all_undone self.new.undoes.items image.new ≡ all_undone self.old.undoes.items image.old }
    {
        if pages.is_empty() {
            return Ok(true);
        }
        match set_lengths(pages) {
            Err(_) => Ok(false),
            Ok(lengths) => {
                add_numbers(&mut self.touched, pages)?;
                apply_noted(self.alloc, &mut self.undoes, image, pages, lengths)?;
                Ok(true)
            }
        }
    }

    /// Takes an answer in, or says how running ends with it.
    fn take(
        &mut self,
        image: &mut Image,
        ran: StatementResult,
    ) -> Result<Option<Ending>, AllocError>
        requires change { IsChange image.old ran.after.pages }
        ensures took { IfOk result (running.TookIn image.old ran image.new self.new.answer) }
        ensures opened { IfOk result (λ ending. running.stops_unopened ending ≡ false) }
        ensures uncut { IfOk result (λ ending. running.stops_cut ending ≡ false) }
        ensures touched { IfOk result (λ ending. ending ≡ None → self.new.touched.items ≡ self.old.touched.items ++ numbers_of ran.after.pages) }
        ensures kept { all_undone self.new.undoes.items image.new ≡ all_undone self.old.undoes.items image.old }
    {
        if !self.apply(image, ran.after.pages.as_slice())? {
            return Ok(Some(Ending::TooLarge(ran)));
        }
        self.answer = ran;
        Ok(None)
    }
}

/// The answer where no statement ran.
fn no_answer(alloc: Global) -> StatementResult
    ensures { result ≡ rules.no_answer }
{
    StatementResult {
        after: PageSet {
            tx: 0,
            pages: Items::new(Vec::new(alloc)),
        },
        affected: 0,
        columns: Items::new(Vec::new(alloc)),
        rows: Items::new(Vec::new(alloc)),
    }
}

/// Runs one more statement over the image, by an engine that forgets all numbers. How running ends, if this is the last for
/// another reason than that all ran.
fn step<E: Engine>(
    engine: &mut E,
    image: &mut Image,
    progress: &mut Progress,
    text: &str,
    params: &[Value],
    options: RunOptions,
) -> Result<Option<Ending>, AllocError>
    ensures stays { Stays (E.kind engine.old) (E.kind engine.new) (E.refused_openings engine.old) (E.refused_openings engine.new) }
    ensures unopened { IfOk result (λ ending. running.stops_unopened ending ≡ true → E.refused_openings engine.old < E.refused_openings engine.new) }
    ensures cut { IfOk result (λ ending. running.stops_cut ending ≡ true → IsSome options.limit) }
    ensures known { E.known engine.new ≡ [] }
    ensures step { IfOk result (Stepped (call_on E.meaning E.kind E.told engine.old engine.new) options.tx image.old
        (record { text = text.now; params = params.now }) image.new progress.new.answer) }
    ensures touched { IfOk result (λ ending. ending ≡ None →
        progress.new.touched.items ≡ progress.old.touched.items ++ numbers_of progress.new.answer.after.pages) }
    ensures kept { all_undone progress.new.undoes.items image.new ≡ all_undone progress.old.undoes.items image.old }
{
    match run_forgetting(engine, image, text, params, options) {
        Ok(ran) => {
            let ending = progress.take(image, ran)?;
            Ok(ending)
        }
        Err(fault) => Ok(Some(Ending::Stopped(fault))),
    }
}

/// Runs the statements of a text one after another, from where nothing ran yet. How running ends, if that is for another
/// reason than that all ran.
fn advance<E: Engine>(
    engine: &mut E,
    image: &mut Image,
    progress: &mut Progress,
    text: &str,
    pieces: &[StatementSpan],
    params: &[Value],
    options: RunOptions,
) -> Result<Option<Ending>, AllocError>
    requires stand { All (StandsIn text.now) pieces.now }
    requires fit { wants pieces.now ≡ length params.now }
    requires start { progress.old.answer ≡ rules.no_answer }
    requires untouched { progress.old.touched.items ≡ [] }
    ensures stays { Stays (E.kind engine.old) (E.kind engine.new) (E.refused_openings engine.old) (E.refused_openings engine.new) }
    ensures unopened { IfOk result (λ ending. running.stops_unopened ending ≡ true → E.refused_openings engine.old < E.refused_openings engine.new) }
    ensures cut { IfOk result (λ ending. running.stops_cut ending ≡ true → IsSome options.limit) }
    ensures known { All (Contains (E.known engine.old)) (E.known engine.new) }
    ensures ran { IfOk result (AdvancedTo (call_on E.meaning E.kind E.told engine.old engine.new) options.tx image.old
        (assigned text.now pieces.now params.now) image.new progress.new.answer) }
    ensures touched { IfOk result (λ ending. ending ≡ None → ListsAll progress.new.touched.items image.old image.new) }
    ensures kept { all_undone progress.new.undoes.items image.new ≡ all_undone progress.old.undoes.items image.old }
{
    let mut rest = params;
    for piece in pieces {
        let (own, later) = rest.split_at(piece.params as usize);
        let one = piece_text(text, piece);
        match step(engine, image, progress, one, own, options)? {
            Some(ending) => return Ok(Some(ending)),
            None => rest = later,
        }
    }
    Ok(None)
}

/// Runs the statements of a text one after another, and says where they led, or how they ended before. The image isn't put
/// back.
fn lead<E: Engine>(
    engine: &mut E,
    image: &mut Image,
    progress: &mut Progress,
    text: &str,
    pieces: &[StatementSpan],
    params: &[Value],
    options: RunOptions,
) -> Result<UnsettledRun, AllocError>
    requires stand { All (StandsIn text.now) pieces.now }
    requires fit { wants pieces.now ≡ length params.now }
    requires start { progress.old.answer ≡ rules.no_answer }
    requires untouched { progress.old.touched.items ≡ [] }
    ensures stays { Stays (E.kind engine.old) (E.kind engine.new) (E.refused_openings engine.old) (E.refused_openings engine.new) }
    ensures unopened { IfOk result (λ came. running.came_unopened came ≡ true → E.refused_openings engine.old < E.refused_openings engine.new) }
    ensures cut { IfOk result (λ came. running.came_cut came ≡ true → IsSome options.limit) }
    ensures known { All (Contains (E.known engine.old)) (E.known engine.new) }
    ensures ran { IfOk result (CameTo (call_on E.meaning E.kind E.told engine.old engine.new) options.tx image.old (assigned text.now pieces.now params.now)
        progress.new.answer) }
    ensures kept { all_undone progress.new.undoes.items image.new ≡ all_undone progress.old.undoes.items image.old }
{
    match advance(engine, image, progress, text, pieces, params, options)? {
        Some(ending) => Ok(UnsettledRun::Short(ending)),
        None => {
            let reached = TouchedImage::of(progress.alloc, image, progress.touched.as_slice())?;
            Ok(UnsettledRun::Through(reached))
        }
    }
}

/// How running ended that ended with this, over the image that was put back; `answer` is the last one's.
fn ended(
    alloc: Global,
    image: &Image,
    came: UnsettledRun,
    answer: StatementResult,
    tx: u64,
) -> Result<Ending, AllocError>
    ensures { IfOk result (λ ending. ending ≡ running.ended tx image.now answer came) }
{
    match came {
        UnsettledRun::Short(ending) => Ok(ending),
        UnsettledRun::Through(reached) => {
            let pages = Items::new(reached.change_from(alloc, image)?);
            let together = Some(PageSet { tx, pages });
            Ok(Ending::Ended(AllRan { together, answer }))
        }
    }
}

/// Runs the statements of a text one after another, each over the image that the one before it left. Each takes as many parameters
/// as it counts, in order; together they take all.
///
/// The statements work on the image in place, and it is put back whatever the outcome. Each keeps the pages that it changes, as
/// they were before, and at the end the pages that they changed are compared with those of the first image; a statement that makes
/// a file shorter keeps a copy of the image. The images between them have no numbers: the engine forgets all numbers before and
/// after each. `Err` means out of memory; the engine has then run some of the statements, and nothing else has changed.
pub fn run_all<E: Engine>(
    alloc: Global,
    engine: &mut E,
    image: &mut Image,
    text: &str,
    pieces: &[StatementSpan],
    params: &[Value],
    options: RunOptions,
) -> Result<Ending, AllocError>
    requires stand { All (StandsIn text.now) pieces.now }
    requires fit { wants pieces.now ≡ length params.now }
    ensures kept { image.new ≡ image.old }
    ensures stays { Stays (E.kind engine.old) (E.kind engine.new) (E.refused_openings engine.old) (E.refused_openings engine.new) }
    ensures unopened { IfOk result (λ ending. running.ends_unopened ending ≡ true → E.refused_openings engine.old < E.refused_openings engine.new) }
    // Nothing is interrupted without a limit.
    ensures cut { IfOk result (λ ending. running.ends_cut ending ≡ true → IsSome options.limit) }
    ensures known { All (Contains (E.known engine.old)) (E.known engine.new) }
    ensures ran { IfOk result (RanTo (call_on E.meaning E.kind E.told engine.old engine.new) options.tx image.old (assigned text.now pieces.now params.now)) }
{
    let mut progress = Progress::new(alloc);
    let came = lead(engine, image, &mut progress, text, pieces, params, options);
    put_back_all(alloc, &mut progress.undoes, image);
    ended(alloc, image, came?, progress.answer, options.tx)
}
