ghost use Rattle.std.specs.Prelude.{◌≡◌, ◌≤◌, ◌⊎◌, ℕ, List, IfErr, IfOk, IfSome, OnOk, map, option_map, string_bytes};
ghost use Rattle.std.specs.Io.KnownBytes.{Appends};
ghost use Rattle.bully.specs.Answer.{Tells, stop_line, verdict_status};
ghost use Rattle.bully_cli.specs.Words.{drawn_of, text_of};
ghost use Rattle.bully.specs.DrawAnswer.{IsBelow, IsDrawAnswer, IsFormAnswer, IsNamedPicture, IsPictureAnswer};
ghost use Rattle.bully.specs.DrawAnswer.{IsPictureBy, IsPictureIn, IsPictureOf, IsSvgOf, claims_asked, form_asked};
ghost use Rattle.bully.specs.DrawAnswer.{names_in, window_asked};
ghost use Rattle.bully_film.specs.Film.{IsFilmOf};
ghost use Rattle.bully_picture.specs.Title.{Begins};
ghost use Rattle.bully_rows.specs.RecordsLeft.{EndsReading};
ghost use Rattle.bully_rows.specs.Rows.{OfTrace};
ghost use Rattle.bully_rows.specs.TraceText.{line_of, row_fields};

use crate::checking::verdict_status;
use crate::configs::{bytes_at, config_of};
use crate::explaining::write_sheet;
use crate::filming::{RuledFilm, film_alone, film_with_rules};
use crate::flags::is_given;
use crate::refusals::{Refusal, answer_refusal};
use crate::telling::{Stop, answer_fault, answer_stop, tell};
use bully_base::{Node, OutOfMemory};
use bully_cli::DrawWords;
use bully_config::Config;
use bully_explain::reason;
use bully_film::{FinishedFilm, Window};
use bully_page::html_page;
use bully_picture::{Around, Claims, svg_picture, text_picture};
use bully_rows::{Row, TraceFault, push_row};
use std::alloc::Global;
use std::io::{Read, Write};
use std::rt::Files;

/// What is drawn: an SVG picture, text for a terminal, or a page with the picture and the rows.
#[derive(Clone, Copy)]
pub enum Form {
    Svg,
    Text,
    Page,
}

/// How a picture is drawn: which rows, in which form, and whether with claims.
#[derive(Clone, Copy)]
pub struct Drawing {
    pub window: Window,
    pub form: Form,
    pub claims: Claims,
}

/// Draws the trace on the input, with the picture on the output, and tells the status, which is that of `check`. The
/// words are looked at first, then the configuration with the names, then the trace. Bad words are `--html` beside
/// `--text`, and rows that can't be shown.
pub fn answer_draw<H: Files + AllocGlobal, R: Read + Drop, W: Write, E: Write>(
    rt: &H,
    words: &DrawWords<'_>,
    input: R,
    output: &mut W,
    errors: &mut E,
) -> u8
    ensures answer { IfSome (R.remaining input) (λ bytes.
        IsDrawAnswer bytes (drawn_of words.now) (W.contents output.old) (W.contents output.new) (E.contents errors.old)
        (E.contents errors.new) result) }
    ensures silent { (result ≡ 2) ⊎ (result ≡ 3) → output.new ≡ output.old }
    ensures status { result ≤ 4 }
{
    match form_of(is_given(words.text), is_given(words.html)) {
        Some(form) => draw_as(rt, words, form, input, output, errors),
        None => {
            tell(
                errors,
                "bully: words: Html: give --html or --text, not both\n",
            );
            2
        }
    }
}

// The form that the words ask for. None where they ask for two.
fn form_of(text: bool, html: bool) -> Option<Form>
    ensures { result ≡ form_asked text html }
{
    match (text, html) {
        (true, true) => None,
        (true, false) => Some(Form::Text),
        (false, true) => Some(Form::Page),
        (false, false) => Some(Form::Svg),
    }
}

// Draws the trace on the input in this form, as the other words say.
fn draw_as<H: Files + AllocGlobal, R: Read + Drop, W: Write, E: Write>(
    rt: &H,
    words: &DrawWords<'_>,
    form: Form,
    input: R,
    output: &mut W,
    errors: &mut E,
) -> u8
    ensures answer { IfSome (R.remaining input) (λ bytes.
        IsFormAnswer bytes (drawn_of words.now) form (W.contents output.old) (W.contents output.new)
        (E.contents errors.old) (E.contents errors.new) result) }
    ensures silent { (result ≡ 2) ⊎ (result ≡ 3) → output.new ≡ output.old }
    ensures status { result ≤ 4 }
{
    match window_of(words.rows) {
        Some(window) => {
            let drawing = Drawing {
                window,
                form,
                claims: claims_of(is_given(words.without_claims)),
            };
            draw_words(rt, words.names, drawing, input, output, errors)
        }
        None => {
            tell(
                errors,
                "bully: words: Rows: --rows takes FROM-TO, as 2-50: row 1 is the header, FROM is at most TO, and 2000 \
                 rows are the most\n",
            );
            2
        }
    }
}

// Whether claims are drawn.
fn claims_of(without: bool) -> Claims
    ensures { result ≡ claims_asked without }
{
    if without {
        Claims::LeftOut
    } else {
        Claims::Shown
    }
}

// Draws the trace on the input, with the names of the configuration at the path, where there is one.
fn draw_words<H: Files + AllocGlobal, R: Read + Drop, W: Write, E: Write>(
    rt: &H,
    names: Option<&str>,
    drawing: Drawing,
    input: R,
    output: &mut W,
    errors: &mut E,
) -> u8
    ensures answer { IfSome (R.remaining input) (λ bytes.
        IsNamedPicture bytes (text_of names.entry) drawing (W.contents output.old) (W.contents output.new)
        (E.contents errors.old) (E.contents errors.new) result) }
    ensures silent { (result ≡ 2) ⊎ (result ≡ 3) → output.new ≡ output.old }
    ensures status { result ≤ 4 }
{
    match names {
        Some(path) => draw_named(rt, path, drawing, input, output, errors),
        None => draw_input(rt.alloc(), drawing, None, input, output, errors),
    }
}

// The window of the words, as `2-50`; the one at the end without words. None where they are no window.
fn window_of(rows: Option<&str>) -> Option<Window>
    ensures { result ≡ window_asked (option_map (λ s. s.now) rows.entry) }
{
    match rows {
        Some(rows) => Window::read(rows),
        None => Some(Window::at_the_end()),
    }
}

// Draws the trace on the input, with the names of the configuration at the path.
fn draw_named<H: Files + AllocGlobal, R: Read + Drop, W: Write, E: Write>(
    rt: &H,
    path: &str,
    drawing: Drawing,
    input: R,
    output: &mut W,
    errors: &mut E,
) -> u8
    ensures answer { (file : List ℕ) × IfSome (R.remaining input) (λ bytes. IsPictureBy bytes file drawing
        (W.contents output.old) (W.contents output.new) (E.contents errors.old) (E.contents errors.new) result) }
    ensures silent { (result ≡ 2) ⊎ (result ≡ 3) → output.new ≡ output.old }
    ensures status { result ≤ 4 }
{
    match bytes_at(rt, path) {
        Ok(bytes) => draw_with(rt.alloc(), bytes.as_slice(), drawing, input, output, errors),
        Err(stop) => answer_stop(stop, errors),
    }
}

// Draws the trace on the input, with the names of the configuration that these bytes of a file are.
fn draw_with<R: Read + Drop, W: Write, E: Write>(
    alloc: Global,
    file: &[u8],
    drawing: Drawing,
    input: R,
    output: &mut W,
    errors: &mut E,
) -> u8
    ensures answer { IfSome (R.remaining input) (λ bytes. IsPictureBy bytes file.now drawing (W.contents output.old)
        (W.contents output.new) (E.contents errors.old) (E.contents errors.new) result) }
    ensures silent { (result ≡ 2) ⊎ (result ≡ 3) → output.new ≡ output.old }
    ensures status { result ≤ 4 }
{
    match config_of(alloc, file) {
        Ok(config) => draw_input(alloc, drawing, Some(&config), input, output, errors),
        Err(fault) => answer_refusal(alloc, Refusal::from(fault), errors),
    }
}

// Draws the trace on the input.
fn draw_input<R: Read + Drop, W: Write, E: Write>(
    alloc: Global,
    drawing: Drawing,
    names: Option<&Config>,
    input: R,
    output: &mut W,
    errors: &mut E,
) -> u8
    ensures answer { IfSome (R.remaining input) (λ bytes.
        IsPictureAnswer bytes drawing (names_in (option_map (λ c. c.now) names.entry)) (W.contents output.old)
        (W.contents output.new) (E.contents errors.old) (E.contents errors.new) result) }
    ensures silent { (result ≡ 2) ⊎ (result ≡ 3) → output.new ≡ output.old }
    ensures status { result ≤ 4 }
{
    match film_for(alloc, drawing.form, drawing.window, input) {
        Ok(film) => draw_finished(alloc, &film, drawing, names, output, errors),
        Err(fault) => answer_fault(alloc, fault, errors),
    }
}

// The film of the trace on the input, with the rules where a page is drawn.
fn film_for<R: Read + Drop>(
    alloc: Global,
    form: Form,
    window: Window,
    input: R,
) -> Result<RuledFilm, TraceFault>
    ensures told { IfOk result (λ film. OfTrace (R.remaining input) (IsFilmOf window film.finished)) }
    ensures fault { IfErr result (EndsReading (R.remaining input)) }
{
    match form {
        Form::Page => film_with_rules(alloc, input, window),
        Form::Svg | Form::Text => film_alone(alloc, input, window),
    }
}

// Draws what a film shows.
fn draw_finished<W: Write, E: Write>(
    alloc: Global,
    film: &RuledFilm,
    drawing: Drawing,
    names: Option<&Config>,
    output: &mut W,
    errors: &mut E,
) -> u8
    ensures answer { ((picture : List ℕ) × IsPictureOf drawing film.now.finished
        (names_in (option_map (λ c. c.now) names.entry)) picture × (((result ≡ verdict_status film.now.finished.verdict)
        × Appends (W.contents output.old) (W.contents output.new) picture × (errors.new ≡ errors.old))
        ⊎ ((result ≡ 4) × Tells (E.contents errors.old) (E.contents errors.new) (stop_line Stop.Write))))
        ⊎ ((result ≡ 4) × (output.new ≡ output.old)
        × Tells (E.contents errors.old) (E.contents errors.new) (stop_line Stop.OutOfMemory)) }
    ensures status { (result ≤ 1) ⊎ (result ≡ 4) }
{
    match picture_of(alloc, film, drawing, names) {
        Ok(picture) => write_sheet(
            verdict_status(film.finished.verdict),
            picture.as_str(),
            output,
            errors,
        ),
        Err(_) => answer_stop(Stop::OutOfMemory, errors),
    }
}

// The picture of what a film shows.
fn picture_of(
    alloc: Global,
    film: &RuledFilm,
    drawing: Drawing,
    names: Option<&Config>,
) -> Result<String, OutOfMemory>
    ensures { IfOk result (λ picture.
        IsPictureOf drawing film.now.finished (names_in (option_map (λ c. c.now) names.entry)) (string_bytes picture)) }
{
    let below = below(alloc, film)?;
    let names = names_of(alloc, names)?;
    picture_in(
        alloc,
        &film.finished,
        drawing,
        names.as_slice(),
        below.as_str(),
    )
}

// The same above this text, with these names.
fn picture_in(
    alloc: Global,
    finished: &FinishedFilm,
    drawing: Drawing,
    names: &[&str],
    below: &str,
) -> Result<String, OutOfMemory>
    ensures { IfOk result (λ picture. IsPictureIn drawing.form drawing.claims finished.now
        (map (λ s. s.now) names.now) below.now (string_bytes picture)) }
{
    match drawing.form {
        Form::Text => text_picture(alloc, finished, below),
        Form::Svg => svg_of(
            alloc,
            finished,
            drawing.claims,
            Around::Nothing,
            names,
            below,
        ),
        Form::Page => page_of(alloc, finished, drawing.claims, names, below),
    }
}

// The picture as SVG, alone or for a page around it.
fn svg_of(
    alloc: Global,
    finished: &FinishedFilm,
    claims: Claims,
    around: Around,
    names: &[&str],
    below: &str,
) -> Result<String, OutOfMemory>
    ensures { IfOk result (λ picture.
        IsSvgOf claims around finished.now (map (λ s. s.now) names.now) below.now (string_bytes picture)) }
{
    svg_picture(alloc, finished, names, claims, around, below)
}

// The page with a picture. The title and this text stand in the page alone.
fn page_of(
    alloc: Global,
    finished: &FinishedFilm,
    claims: Claims,
    names: &[&str],
    below: &str,
) -> Result<String, OutOfMemory>
    ensures { IfOk result (λ page.
        IsPictureIn Form.Page claims finished.now (map (λ s. s.now) names.now) below.now (string_bytes page)) }
{
    let picture = svg_of(alloc, finished, claims, Around::Page, names, "")?;
    html_page(alloc, finished, picture.as_str(), names, claims, below)
}

// The line of the row that decided, why it did, and the rules that it breaks; nothing of a lawful trace.
fn below(alloc: Global, film: &RuledFilm) -> Result<String, OutOfMemory>
    ensures { IfOk result (λ below. IsBelow film.now.finished.stop (string_bytes below)) }
{
    match &film.finished.stop {
        Some(row) => reason_of(alloc, film, row),
        None => Ok(String::new(alloc)),
    }
}

// The line of the row that decided, why it did, and the rules that it breaks.
fn reason_of(alloc: Global, film: &RuledFilm, row: &Row) -> Result<String, OutOfMemory>
    ensures { IfOk result (λ text. Begins (string_bytes text) (line_of (row_fields row.now))) }
{
    let mut text = String::new(alloc);
    push_row(&mut text, row)?;
    push_why(alloc, &mut text, &film.finished, row)?;
    text.push_str(film.rules.as_str())?;
    Ok(text)
}

// Appends what the sheet of the row that decided says after its line.
fn push_why(
    alloc: Global,
    text: &mut String,
    finished: &FinishedFilm,
    row: &Row,
) -> Result<(), OutOfMemory>
    ensures { OnOk result (Begins (string_bytes text.new) (string_bytes text.old)) }
{
    let reason = reason(alloc, finished.judge.world(), finished.verdict, row)?;
    match reason.split_once('\n') {
        Some((_, why)) => text.push_str(why),
        None => Ok(()),
    }
}

// The names of the configuration's nodes, from node 1 on; none without one.
fn names_of<'a>(alloc: Global, config: Option<&'a Config>) -> Result<Vec<&'a str>, OutOfMemory>
    ensures { IfOk result (λ names. map (λ s. s.now) names.items ≡ names_in (option_map (λ c. c.now) config.entry)) }
{
    match config {
        Some(config) => all_names(alloc, config),
        None => Ok(Vec::new(alloc)),
    }
}

fn all_names<'a>(alloc: Global, config: &'a Config) -> Result<Vec<&'a str>, OutOfMemory>
    ensures { IfOk result (λ names. map (λ s. s.now) names.items ≡ config.now.names) }
{
    let mut names = Vec::new(alloc);
    for before in 0..config.setup().nodes() {
        let node = Node::new(before + 1).unwrap();
        names.push(config.name(node))?;
    }
    Ok(names)
}
