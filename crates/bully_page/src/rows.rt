//! The rows of a page.
ghost use Rattle.std.specs.Prelude.{◌≡◌, map};
ghost use Rattle.bully_page.specs.Page.{opening, row_text, rows_text, summary_text};
ghost use Rattle.bully_picture.specs.Written.{Writes};

use crate::changes::{push_changes, push_effects};
use bully_film::{FinishedFilm, Scene};
use bully_picture::{Claims, Paper, is_shown, push_meaning, push_said};

/// Writes the rows of a film, with these names of the nodes.
pub fn push_rows(page: &mut Paper, finished: &FinishedFilm, names: &[&str], claims: Claims)
    ensures { Writes page.old page.new (rows_text claims finished.now.verdict finished.now.setup.nodes
        (map (λ s. s.now) names.now) finished.now.scenes.items) }
{
    for scene in finished.scenes.as_slice() {
        if is_shown(claims, finished.verdict, scene) {
            push_row(page, finished, scene, names);
        }
    }
}

// Writes a row, folded, but for the one that decided.
fn push_row(page: &mut Paper, finished: &FinishedFilm, scene: &Scene, names: &[&str])
    ensures { Writes page.old page.new
        (row_text finished.now.verdict finished.now.setup.nodes (map (λ s. s.now) names.now) scene.now) }
{
    let decides = finished.verdict.decides(scene.number);
    push_summary(page, scene, decides);
    push_changes(page, finished, scene, names);
    push_effects(page, scene, decides);
    page.push("</details>\n");
}

// Writes the number of the row, what it says, and what it does.
fn push_summary(page: &mut Paper, scene: &Scene, decides: bool)
    ensures { Writes page.old page.new (summary_text decides scene.now) }
{
    page.push_number("<details id=\"row", scene.number, "\"");
    page.push(opening(decides));
    page.push_number("><summary><b>", scene.number, "</b> ");
    push_said(page, scene);
    push_meaning(page, scene, decides);
    page.push("</summary>\n");
}

// The row that decided stands open, and looks otherwise.
fn opening(decides: bool) -> &'static str
    ensures { result.now ≡ opening decides }
{
    if decides {
        " class=\"decided\" open"
    } else {
        ""
    }
}
