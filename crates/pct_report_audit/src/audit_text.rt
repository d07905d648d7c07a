//! The text of an audit.

ghost use Rattle.std.specs.Prelude.{◌≡◌};
ghost use Rattle.pct_io.specs.Writes.{Writes};
ghost use Rattle.pct_model.specs.Keywords.{line_text};
ghost use Rattle.pct_report_audit.specs.AuditTexts.{audit_line, audit_text, law_text};

use crate::report_audit::ReportAudit;
use pct_audit::Law;
use pct_io::{BufferedSink, Failed, Field, Sink, write_line};
use pct_judgement::write_report_refusal;

/// Writes an audit, which is one line: `audit ok N`, where N is the number of events; `audit event K LAW`, where K is the number of the first
/// event at which a law fails, counted from 1, and LAW is `once`, `slot`, `join`, `cond` or `call_once`; or the line of a refusal,
/// `refused report LINE WHY`.
///
/// `Failed` means that the sink recorded one error, and that a prefix of the line was written. The call allocates no memory.
pub fn write_audit<K: Sink>(audit: ReportAudit, sink: &mut K) -> Result<(), Failed>
    ensures { Writes K.written K.errors K.inners sink.old sink.new (audit_text audit) result }
{
    let mut out = BufferedSink::new(sink);
    write_audit_line(audit, &mut out)?;
    out.flush()
}

// Writes the line of an audit.
#[tactic(auto, unfolding(crate::specs::AuditTexts::audit_line))]
fn write_audit_line<K: Sink>(audit: ReportAudit, sink: &mut K) -> Result<(), Failed>
    ensures { Writes K.written K.errors K.inners sink.old sink.new (line_text (audit_line audit)) result }
{
    let title = Field::Text(b"audit");
    match audit {
        ReportAudit::Passed { events } => write_line(
            sink,
            &[title, Field::Text(b"ok"), Field::Number(events)],
        ),
        ReportAudit::Failed(fault) => write_line(
            sink,
            &[
                title,
                Field::Text(b"event"),
                Field::Number(fault.event),
                Field::Text(text_of_law(fault.law)),
            ],
        ),
        ReportAudit::Refused { line, why } => write_report_refusal(line, why, sink),
    }
}

// The word for a law.
#[tactic(auto, unfolding(crate::specs::AuditTexts::law_text))]
fn text_of_law(law: Law) -> &'static [u8]
    ensures { result.now ≡ law_text law }
{
    match law {
        Law::Once => b"once",
        Law::Slot => b"slot",
        Law::Join => b"join",
        Law::Cond => b"cond",
        Law::CallOnce => b"call_once",
    }
}
