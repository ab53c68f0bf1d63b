ghost use Rattle.std.specs.Prelude.{◌≡◌, Some, None, IfOk, string_bytes};
ghost use Rattle.bully_config.specs.Answers.{refusal_of};
ghost use Rattle.bully_draft.specs.ConfigTold.{IsConfigText, IsConfigTold, document_head};
ghost use Rattle.bully_draft.specs.Drafted.{Appends, AppendsLines};
ghost use Rattle.toml.specs.Errors.{IsMemory};
ghost use Rattle.toml.specs.View.{table_view};

use crate::config_text::push_fault;
use crate::draft::Draft;
use bully_base::OutOfMemory;
use bully_config::{ConfigFault, first_refusal};
use std::alloc::{AllocError, Global};
use toml::Table;

/// What is told of a configuration, its first fault, if any, and the text that explains it.
#[derive(Drop)]
pub struct ConfigSheet {
    pub told: Option<ConfigFault>,
    pub text: String,
}

/// Explains the first fault of a configuration's text, the one that [`bully_config::Config::read`] answers: of a
/// document the place, the key, its value, and what may stand there; of another text the line, the column, and what the
/// reader met. What stands in the text ends no line of the sheet. Refused where an allocation fails. The rule:
/// docs/FORMATS.md.
pub fn explain_config(alloc: Global, text: &str) -> Result<ConfigSheet, OutOfMemory>
    ensures told { IfOk result (λ sheet. IsConfigTold text.now sheet.told) }
    ensures lines { IfOk result (λ sheet. IsConfigText sheet.told (string_bytes sheet.text)) }
{
    match toml::table_from_str(alloc, text) {
        Ok(document) => document_sheet(alloc, &document),
        Err(error) => toml_sheet(alloc, &error),
    }
}

// The sheet of a text that is no TOML document, which has the line, the column and what the reader found there.
fn toml_sheet(alloc: Global, error: &toml::de::Error) -> Result<ConfigSheet, OutOfMemory>
    ensures told { IfOk result (λ sheet. sheet.told ≡ Some ConfigFault.Toml) }
    ensures lines { IfOk result (λ sheet. IsConfigText sheet.told (string_bytes sheet.text)) }
    ensures form { IfOk result (λ sheet. ¬ (IsMemory error.now)) }
{
    if error.is_memory() {
        return Err(AllocError);
    }
    let told = format!(in alloc; "{error}")?;
    let mut draft = Draft::new(alloc);
    push_lines(&mut draft, told.as_str());
    let text = draft.finish()?;
    Ok(ConfigSheet {
        told: Some(ConfigFault::Toml),
        text,
    })
}

// Appends the lines of the text.
fn push_lines(draft: &mut Draft, text: &str)
    ensures { AppendsLines draft.old draft.new }
{
    for line in text.lines() {
        draft.push_shown(line);
        draft.push_str("\n");
    }
}

// The sheet of a document.
fn document_sheet(alloc: Global, document: &Table) -> Result<ConfigSheet, OutOfMemory>
    ensures told { IfOk result (λ sheet. sheet.told ≡ refusal_of (table_view document.now)) }
    ensures lines { IfOk result (λ sheet. IsConfigText sheet.told (string_bytes sheet.text)) }
{
    let told = first_refusal(document);
    let rest = document_rest(alloc, document, told)?;
    let mut draft = Draft::new(alloc);
    push_document_head(&mut draft, told);
    draft.push_shown(rest.as_str());
    let text = draft.finish_line(alloc)?;
    Ok(ConfigSheet { told, text })
}

// Appends how the line of a document starts: with its first fault, or that it has none.
fn push_document_head(text: &mut Draft, told: Option<ConfigFault>)
    ensures { Appends text.old text.new (document_head told) }
{
    match told {
        Some(fault) => text.push_between("", fault, ": "),
        None => text.push_str("the configuration has no fault"),
    }
}

// What comes after that.
fn document_rest(
    alloc: Global,
    document: &Table,
    told: Option<ConfigFault>,
) -> Result<String, OutOfMemory> {
    let mut text = Draft::new(alloc);
    if let Some(fault) = told {
        push_fault(&mut text, document, fault);
    }
    text.finish()
}
