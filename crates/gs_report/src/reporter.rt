// A reporter.

ghost use Rattle.std.specs.Prelude.{◌≡◌, ◌++◌, OnOk};
ghost use Rattle.gs_schedule.specs.Output.{output_line};
ghost use Rattle.gs_run.specs.Report.{is_sum, unit_text, report_text};
ghost use Rattle.gs_report.specs.Reporting.{unit_now};

use gs_bytes::OutOfMemory;
use gs_command::Detail;
use gs_schedule::{Output, output_line};
use std::alloc::Global;
use std::marker::Model;

/// Collects the text of what happens in a run, until it is written.
#[derive(Drop)]
pub struct Reporter {
    alloc: Global,
    detail: Detail,
    text: Vec<u8>,
}

impl Model for Reporter {
    ghost use Rattle.gs_report.specs.Reporting.{Reporting};

    ghost Value = { Reporting };

    ghost view = { λ r. record { detail = r.detail; text = r.text.items } };
}

// Whether a line is a sum or the last.
fn is_sum(output: &Output) -> bool
    ensures { result ≡ is_sum output.now }
{
    matches!(output, Output::Total { .. } | Output::Done)
}

// Adds a line.
fn add_line(alloc: Global, output: &Output, text: &mut Vec<u8>) -> Result<(), OutOfMemory>
    ensures { OnOk result (text.new.items ≡ text.old.items ++ output_line output.now) }
{
    let line = output_line(alloc, output)?;
    text.extend_from_slice(line.as_bytes())?;
    Ok(())
}

// Adds the unit, where there is one, and a newline.
fn add_unit(unit: Option<&[u8]>, text: &mut Vec<u8>) -> Result<(), OutOfMemory>
    ensures { OnOk result (text.new.items ≡ text.old.items ++ unit_text (unit_now unit.entry)) }
{
    if let Some(unit) = unit {
        text.extend_from_slice(unit)?;
        text.push(b'\n')?;
    }
    Ok(())
}

// Adds what is written of a line and its unit.
fn add_report(
    alloc: Global,
    detail: Detail,
    output: &Output,
    unit: Option<&[u8]>,
    text: &mut Vec<u8>,
) -> Result<(), OutOfMemory>
    ensures { OnOk result (text.new.items
        ≡ text.old.items ++ report_text detail (record { output = output.now; unit = unit_now unit.entry })) }
{
    match detail {
        Detail::Bytes => {
            add_line(alloc, output, text)?;
            add_unit(unit, text)
        }
        Detail::Brief => add_line(alloc, output, text),
        Detail::Sums => {
            if is_sum(output) {
                add_line(alloc, output, text)
            } else {
                Ok(())
            }
        }
    }
}

impl Reporter {
    ghost use Rattle.std.specs.Prelude.{[], ◌∷◌};
    ghost use Rattle.gs_report.specs.Reporting.{with_reports};

    /// Nothing happened yet.
    pub fn new(alloc: Global, detail: Detail) -> Reporter
        ensures { result ≡ record { detail = detail; text = [] } }
    {
        Reporter {
            alloc,
            detail,
            text: Vec::new(alloc),
        }
    }

    /// Adds the line of what happened and, where all is written, the unit that is handed or played with it. After an
    /// error a part of it may be added.
    pub fn report(&mut self, output: &Output, unit: Option<&[u8]>) -> Result<(), OutOfMemory>
        ensures ok { OnOk result (self.new
            ≡ with_reports self.old (record { output = output.now; unit = unit_now unit.entry } ∷ [])) }
        ensures detail { self.new.detail ≡ self.old.detail }
    {
        add_report(self.alloc, self.detail, output, unit, &mut self.text)
    }

    /// The text so far.
    pub fn text(&self) -> &[u8]
        ensures { result.now ≡ self.now.text }
    {
        &self.text
    }

    /// Begins again, once the text was written.
    pub fn clear(&mut self)
        ensures { self.new ≡ record self.old { text = [] } }
    {
        self.text.clear();
    }
}
