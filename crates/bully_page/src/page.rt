//! The page as a whole.
ghost use Rattle.std.specs.Prelude.{◌≡◌, ◌++◌, false, length, map, IfOk, string_bytes};
ghost use Rattle.std.specs.Str.Lines.{lines};
ghost use Rattle.bully_film.specs.Lane.{row_before};
ghost use Rattle.bully_page.specs.Page.{HasLines, HasRowsOf, IsPage, behind_text, front_text, headed, line_text};
ghost use Rattle.bully_page.specs.Page.{lines_text, page_end, page_start, page_text, rows_text, titled};
ghost use Rattle.bully_picture.specs.Title.{Begins, Ends, Has, title_text};
ghost use Rattle.bully_picture.specs.Written.{IsIn, Writes};
ghost use Rattle.bully_trace.specs.VerdictText.{verdict_head};

use crate::rows::push_rows;
use bully_base::OutOfMemory;
use bully_film::FinishedFilm;
use bully_picture::{Claims, Paper, push_title};
use std::alloc::Global;

// The head, up to the title: how the page looks on a screen, and on paper.
const HEAD: &str = "\
<html lang=\"en\">\n\
<head>\n\
<meta charset=\"utf-8\">\n\
<meta name=\"viewport\" content=\"width=device-width, initial-scale=1\">\n\
<style>\n\
:root { color-scheme: light; }\n\
body { margin: 1.5em; font: 15px/1.5 \"DejaVu Sans\", sans-serif; color: #222; background: #fff; }\n\
h1 { font-size: 1.2em; }\n\
h1 a { color: inherit; }\n\
.picture { overflow: auto; max-height: 85vh; margin-bottom: 1em; border: 1px solid #ddd; }\n\
.picture svg { display: block; }\n\
.below { font-family: \"DejaVu Sans Mono\", monospace; white-space: pre-wrap; margin: 0; color: #a33c00; }\n\
#search { position: sticky; top: 0; margin: 0; padding: .6em 0; background: #fff; }\n\
#sought { font: inherit; width: 18em; }\n\
details { border-bottom: 1px solid #eee; break-inside: avoid; }\n\
summary { cursor: pointer; padding: .15em 0; }\n\
summary b { display: inline-block; min-width: 3.5em; color: #666; }\n\
.decided > summary { color: #a33c00; background: #fbeae0; }\n\
table { border-collapse: collapse; margin: 0 0 .5em 5em; }\n\
th, td { padding: .1em 1.5em .1em 0; text-align: left; vertical-align: top; font-weight: normal; }\n\
th { color: #666; }\n\
details p { margin: 0 0 .5em 5em; }\n\
@media print {\n\
body { margin: 0; font-size: 11px; }\n\
.picture { overflow: visible; max-height: none; border: none; }\n\
.picture svg { max-width: 100%; height: auto; }\n\
#search { display: none; }\n\
details::details-content { content-visibility: visible; block-size: auto; }\n\
}\n\
</style>\n";

// The search. It is hidden, until the script shows it.
const SEARCH: &str = "\
<p id=\"search\" hidden><label>Rows with <input type=\"search\" id=\"sought\" autocomplete=\"off\"></label> <output \
id=\"found\"></output></p>\n";

// The script. The box of the picture opens at the row that decided, and the verdict is a link to it, if it is shown.
// The search: of what is typed, the rows that have it are open, and the others hidden.
const SCRIPT: &str = "\
<script>\n\
(function () {\n\
const rows = Array.from(document.querySelectorAll('#rows > details'), row => [row, row.textContent.toLowerCase()]);\n\
const sought = document.getElementById('sought'), found = document.getElementById('found');\n\
const before = new Set(rows.filter(([row]) => row.open).map(([row]) => row));\n\
function search() {\n\
const words = sought.value.trim().toLowerCase();\n\
let count = 0;\n\
for (const [row, text] of rows) {\n\
const has = text.includes(words);\n\
row.hidden = !has;\n\
row.open = words ? has : before.has(row);\n\
count += has;\n\
}\n\
found.textContent = words ? `${count} of ${rows.length}` : '';\n\
}\n\
sought.addEventListener('input', search);\n\
document.getElementById('search').hidden = false;\n\
const decided = document.getElementById('decided'), box = document.querySelector('.picture'), heading = \
document.querySelector('h1');\n\
if (decided) {\n\
box.scrollTop = decided.getBoundingClientRect().top - box.getBoundingClientRect().top - box.clientHeight / 2;\n\
const link = document.createElement('a');\n\
link.href = '#decided';\n\
link.append(...heading.childNodes);\n\
heading.append(link);\n\
}\n\
}());\n\
</script>\n";

/// The page of what a film shows: an HTML document with the verdict, this picture as it is, this text below it, a line
/// each, and the rows, each once and in order, folded, with what it changes inside. With these names of the nodes, from
/// node 1 on. Where claims are left out, so are their rows, but for one that decided. Refused where an allocation
/// fails.
pub fn html_page(
    alloc: Global,
    finished: &FinishedFilm,
    picture: &str,
    names: &[&str],
    claims: Claims,
    below: &str,
) -> Result<String, OutOfMemory>
    ensures document { IfOk result (λ text. IsPage (string_bytes text)) }
    ensures verdict { IfOk result (λ text. Has (string_bytes text) (verdict_head finished.now.verdict)) }
    ensures title { IfOk result (λ text. Has (string_bytes text)
        (titled (title_text finished.now.verdict finished.now.setup.nodes finished.now.setup.partitions
        (row_before finished.now.scenes.items) (length finished.now.scenes.items)))) }
    ensures heading { IfOk result (λ text. Has (string_bytes text)
        (headed (title_text finished.now.verdict finished.now.setup.nodes finished.now.setup.partitions
        (row_before finished.now.scenes.items) (length finished.now.scenes.items)))) }
    ensures picture { IfOk result (λ text. Has (string_bytes text) picture.now) }
    ensures below { IfOk result (λ text. HasLines (string_bytes text) below.now) }
    ensures rows { IfOk result (λ text. HasRowsOf (string_bytes text) claims finished.now.verdict
        finished.now.setup.nodes (map (λ s. s.now) names.now) finished.now.scenes.items) }

    // It has nothing else.
    ensures whole { IfOk result (λ text. string_bytes text ≡ page_text
        (title_text finished.now.verdict finished.now.setup.nodes finished.now.setup.partitions
        (row_before finished.now.scenes.items) (length finished.now.scenes.items))
        picture.now below.now (rows_text claims finished.now.verdict finished.now.setup.nodes
        (map (λ s. s.now) names.now) finished.now.scenes.items)) }
{
    let front = front_of(alloc, finished);
    let behind = behind_of(alloc, finished, names, claims, below);
    joined(front, picture, behind)
}

// The whole: the picture between what stands before it and after it.
fn joined(front: Paper, picture: &str, behind: Paper) -> Result<String, OutOfMemory>
    ensures front { IfOk result (λ text. front.has_failed ≡ false) }
    ensures behind { IfOk result (λ text. behind.has_failed ≡ false) }
    ensures text { IfOk result (λ text. string_bytes text ≡ front.text ++ picture.now ++ behind.text) }
{
    let mut text = front.into_text()?;
    let behind = behind.into_text()?;
    text.push_str(picture)?;
    text.push_str(behind.as_str())?;
    Ok(text)
}

// What stands before the picture.
fn front_of(alloc: Global, finished: &FinishedFilm) -> Paper
    ensures begins { IsIn result (λ text. Begins text page_start) }
    ensures title { IsIn result (λ text. Has text
        (titled (title_text finished.now.verdict finished.now.setup.nodes finished.now.setup.partitions
        (row_before finished.now.scenes.items) (length finished.now.scenes.items)))) }
    ensures heading { IsIn result (λ text. Has text
        (headed (title_text finished.now.verdict finished.now.setup.nodes finished.now.setup.partitions
        (row_before finished.now.scenes.items) (length finished.now.scenes.items)))) }
    ensures text { IsIn result (λ text. text ≡ front_text
        (title_text finished.now.verdict finished.now.setup.nodes finished.now.setup.partitions
        (row_before finished.now.scenes.items) (length finished.now.scenes.items))) }
{
    let mut front = Paper::new(alloc);
    front.push("<!DOCTYPE html>\n");
    front.push(HEAD);
    push_titled(&mut front, "<title>", finished, "</title>");
    front.push("\n</head>\n<body>\n");
    push_titled(&mut front, "<h1>", finished, "</h1>");
    front.push("\n<div class=\"picture\">\n");
    front
}

// Writes the words of the title between these tags.
fn push_titled(
    page: &mut Paper,
    before: &'static str,
    finished: &FinishedFilm,
    behind: &'static str,
)
    ensures { Writes page.old page.new
        (before.now ++ title_text finished.now.verdict finished.now.setup.nodes finished.now.setup.partitions
        (row_before finished.now.scenes.items) (length finished.now.scenes.items) ++ behind.now) }
{
    page.push(before);
    push_title(page, finished);
    page.push(behind);
}

// What comes after it.
fn behind_of(
    alloc: Global,
    finished: &FinishedFilm,
    names: &[&str],
    claims: Claims,
    below: &str,
) -> Paper
    ensures ends { IsIn result (λ text. Ends text page_end) }
    ensures below { IsIn result (λ text. HasLines text below.now) }
    ensures rows { IsIn result (λ text. HasRowsOf text claims finished.now.verdict finished.now.setup.nodes
        (map (λ s. s.now) names.now) finished.now.scenes.items) }
    ensures text { IsIn result (λ text. text ≡ behind_text below.now
        (rows_text claims finished.now.verdict finished.now.setup.nodes
        (map (λ s. s.now) names.now) finished.now.scenes.items)) }
{
    let mut behind = Paper::new(alloc);
    behind.push("</div>\n");
    push_below(&mut behind, below);
    behind.push(SEARCH);
    behind.push("<div id=\"rows\">\n");
    push_rows(&mut behind, finished, names, claims);
    behind.push("</div>\n");
    behind.push(SCRIPT);
    behind.push("</body>\n</html>\n");
    behind
}

// Writes the text below the picture, a line each.
fn push_below(page: &mut Paper, below: &str)
    ensures { Writes page.old page.new (lines_text (lines below.now)) }
{
    for line in below.lines() {
        push_line(page, line);
    }
}

// Writes a line of it.
fn push_line(page: &mut Paper, line: &str)
    ensures { Writes page.old page.new (line_text line.now) }
{
    page.push("<p class=\"below\">");
    page.push_escaped(line);
    page.push("</p>\n");
}
