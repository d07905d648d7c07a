//! `print`: the canonical text of a script.

ghost use Rattle.std.specs.Prelude.{[], ◌∷◌, ◌++◌, length, decimal};
ghost use Rattle.std.specs.List.{join_with_byte};
ghost use Rattle.pct_io.specs.Writes.{Writes};
ghost use Rattle.pct_model.specs.declared.line_kind.SymbolKind.TheVariants as kind;
ghost use Rattle.pct_model.specs.Keywords.{line_text, text_of};
ghost use Rattle.pct_model.specs.LineKinds.{syntax_of};
ghost use Rattle.pct_model.specs.Spells.{contents_of};
ghost use Rattle.pct_model.specs.Canon.{argument_text, statement_words, declaration_line, function_lines, canon};
ghost use Rattle.pct_printer.specs.Printing.{spaced, names_text, sems_text, two_kinds_text, all_names_text, declarations_text, fn_text, arguments_text, body_text, functions_text};

use crate::argument_text::argument_field;
use crate::encode::{EncodedStmt, encode};
use pct_cancel::point_name;
use pct_io::{BufferedSink, Failed, Field, Sink, write_all, write_line, write_spaced_field};
use pct_model::{Argument, ArgumentKind, Func, LineKind, Name, Script, SemDecl, Stmt, SymbolKind};

/// Writes the canonical text of the script to the sink. After `Failed` a prefix of the text was written, and the sink has
/// recorded an error. It allocates no memory.
pub fn print<K: Sink>(script: &Script, sink: &mut K) -> Result<(), Failed>
    ensures { Writes K.written K.errors K.inners sink.old sink.new (canon script.now) result }
{
    let mut out = BufferedSink::new(sink);
    write_script(&mut out, script)?;
    out.flush()
}

fn write_script<K: Sink>(sink: &mut K, script: &Script) -> Result<(), Failed>
    ensures { Writes K.written K.errors K.inners sink.old sink.new (canon script.now) result }
{
    write_declarations(sink, script)?;
    write_functions(sink, script, script.funcs.as_slice())
}

// ---- declarations

// All declarations except those of functions.
fn write_declarations<K: Sink>(sink: &mut K, script: &Script) -> Result<(), Failed>
    ensures { Writes K.written K.errors K.inners sink.old sink.new (declarations_text (contents_of script.now)) result }
{
    write_names(sink, script)?;
    write_sems(sink, script.sems.as_slice())?;
    write_names_of(sink, SymbolKind::Once, script.onces.as_slice())
}

// The declarations of globals, mutexes and condition variables.
fn write_names<K: Sink>(sink: &mut K, script: &Script) -> Result<(), Failed>
    ensures { Writes K.written K.errors K.inners sink.old sink.new (all_names_text (contents_of script.now)) result }
{
    write_two_kinds(sink, script)?;
    write_names_of(sink, SymbolKind::Cond, script.conds.as_slice())
}

fn write_two_kinds<K: Sink>(sink: &mut K, script: &Script) -> Result<(), Failed>
    ensures { Writes K.written K.errors K.inners sink.old sink.new (two_kinds_text (contents_of script.now)) result }
{
    write_names_of(sink, SymbolKind::Global, script.globals.as_slice())?;
    write_names_of(sink, SymbolKind::Mutex, script.mutexes.as_slice())
}

// The declarations of these names of a kind.
fn write_names_of<K: Sink>(sink: &mut K, kind: SymbolKind, names: &[Name]) -> Result<(), Failed>
    ensures { Writes K.written K.errors K.inners sink.old sink.new (names_text kind names.now) result }
{
    for name in names {
        write_name(sink, kind, name)?;
    }
    Ok(())
}

fn write_name<K: Sink>(sink: &mut K, kind: SymbolKind, name: &Name) -> Result<(), Failed>
    ensures { Writes K.written K.errors K.inners sink.old sink.new (line_text (declaration_line kind (name.now ∷ []))) result }
{
    write_line(
        sink,
        &[Field::Text(kind.keyword()), Field::Text(name.as_bytes())],
    )
}

fn write_sems<K: Sink>(sink: &mut K, sems: &[SemDecl]) -> Result<(), Failed>
    ensures { Writes K.written K.errors K.inners sink.old sink.new (sems_text sems.now) result }
{
    for sem in sems {
        write_sem(sink, sem)?;
    }
    Ok(())
}

fn write_sem<K: Sink>(sink: &mut K, sem: &SemDecl) -> Result<(), Failed>
    ensures { Writes K.written K.errors K.inners sink.old sink.new (line_text (declaration_line kind.Sem (sem.now.name ∷ decimal sem.now.count ∷ []))) result }
{
    write_line(
        sink,
        &[
            Field::Text(SymbolKind::Sem.keyword()),
            Field::Text(sem.name.as_bytes()),
            Field::Number(sem.count),
        ],
    )
}

// ---- functions

fn write_functions<K: Sink>(sink: &mut K, script: &Script, funcs: &[Func]) -> Result<(), Failed>
    ensures { Writes K.written K.errors K.inners sink.old sink.new (functions_text (contents_of script.now) funcs.now) result }
{
    for func in funcs {
        write_function(sink, script, func)?;
    }
    Ok(())
}

fn write_function<K: Sink>(sink: &mut K, script: &Script, func: &Func) -> Result<(), Failed>
    ensures { Writes K.written K.errors K.inners sink.old sink.new (text_of (function_lines (contents_of script.now) func.now)) result }
{
    write_fn_line(sink, func)?;
    write_body(sink, script, func.locals.as_slice(), func.body.as_slice())
}

// The `fn` line of a function.
fn write_fn_line<K: Sink>(sink: &mut K, func: &Func) -> Result<(), Failed>
    ensures { Writes K.written K.errors K.inners sink.old sink.new (line_text (declaration_line kind.Function (func.now.name ∷ func.now.locals))) result }
{
    write_fn_words(sink, func)?;
    write_all(sink, b"\n")
}

fn write_fn_words<K: Sink>(sink: &mut K, func: &Func) -> Result<(), Failed>
    ensures { Writes K.written K.errors K.inners sink.old sink.new (fn_text func.now.name ++ spaced func.now.locals) result }
{
    write_fn(sink, &func.name)?;
    write_spaced_names(sink, func.locals.as_slice())
}

// The first two words of a `fn` line.
fn write_fn<K: Sink>(sink: &mut K, name: &Name) -> Result<(), Failed>
    ensures { Writes K.written K.errors K.inners sink.old sink.new (fn_text name.now) result }
{
    write_all(sink, SymbolKind::Function.keyword())?;
    write_spaced_field(sink, &Field::Text(name.as_bytes()))
}

// Each name after a space.
fn write_spaced_names<K: Sink>(sink: &mut K, names: &[Name]) -> Result<(), Failed>
    ensures { Writes K.written K.errors K.inners sink.old sink.new (spaced names.now) result }
{
    for name in names {
        write_spaced_name(sink, name)?;
    }
    Ok(())
}

fn write_spaced_name<K: Sink>(sink: &mut K, name: &Name) -> Result<(), Failed>
    ensures { Writes K.written K.errors K.inners sink.old sink.new (32 ∷ name.now) result }
{
    write_spaced_field(sink, &Field::Text(name.as_bytes()))
}

// ---- statements

fn write_body<K: Sink>(
    sink: &mut K,
    script: &Script,
    locals: &[Name],
    body: &[Stmt],
) -> Result<(), Failed>
    ensures { Writes K.written K.errors K.inners sink.old sink.new (body_text (contents_of script.now) locals.now body.now) result }
{
    for statement in body {
        write_statement(sink, script, locals, *statement)?;
    }
    Ok(())
}

fn write_statement<K: Sink>(
    sink: &mut K,
    script: &Script,
    locals: &[Name],
    statement: Stmt,
) -> Result<(), Failed>
    ensures { Writes K.written K.errors K.inners sink.old sink.new (line_text (statement_words (contents_of script.now) locals.now statement)) result }
{
    write_statement_words(sink, script, locals, statement)?;
    write_all(sink, b"\n")
}

/// Writes the words of a statement, as in the canonical text, to the sink: the statement is in a function with these
/// locals. After `Failed` a prefix of them was written, and the sink has recorded an error. It allocates no memory.
pub fn write_statement_words<K: Sink>(
    sink: &mut K,
    script: &Script,
    locals: &[Name],
    statement: Stmt,
) -> Result<(), Failed>
    ensures { Writes K.written K.errors K.inners sink.old sink.new (join_with_byte 32 (statement_words (contents_of script.now) locals.now statement)) result }
{
    write_encoded(sink, script, locals, &encode(statement))
}

// The words of a statement's line.
fn write_encoded<K: Sink>(
    sink: &mut K,
    script: &Script,
    locals: &[Name],
    encoded: &EncodedStmt,
) -> Result<(), Failed>
    ensures { Writes K.written K.errors K.inners sink.old sink.new ((syntax_of encoded.now.0).keyword ++ arguments_text (contents_of script.now) locals.now ((syntax_of encoded.now.0).argument_kinds (length encoded.now.1)) encoded.now.1) result }
{
    let line_kind = encoded.line_kind();
    write_first_word(sink, line_kind)?;
    write_arguments(sink, script, locals, line_kind, encoded.arguments())
}

// The first word of a line of this kind.
fn write_first_word<K: Sink>(sink: &mut K, line_kind: LineKind) -> Result<(), Failed>
    ensures { Writes K.written K.errors K.inners sink.old sink.new (syntax_of line_kind).keyword result }
{
    match line_kind {
        LineKind::Point(index) => write_all(sink, point_name(index)),
        _ => write_all(sink, line_kind.keyword().unwrap()),
    }
}

// The words of the arguments of a line of this kind, each after a space.
fn write_arguments<K: Sink>(
    sink: &mut K,
    script: &Script,
    locals: &[Name],
    line_kind: LineKind,
    arguments: &[Argument],
) -> Result<(), Failed>
    ensures { Writes K.written K.errors K.inners sink.old sink.new (arguments_text (contents_of script.now) locals.now ((syntax_of line_kind).argument_kinds (length arguments.now)) arguments.now) result }
{
    let words = arguments.len();
    let mut at = 0;
    let mut rest = arguments;
    while let Some((argument, after)) = rest.split_first() {
        let Some(argument_kind) = line_kind.argument_kind(words, at) else {
            return Ok(());
        };
        write_argument(sink, script, locals, argument_kind, *argument)?;
        at += 1;
        rest = after;
    }
    Ok(())
}

fn write_argument<K: Sink>(
    sink: &mut K,
    script: &Script,
    locals: &[Name],
    argument_kind: ArgumentKind,
    argument: Argument,
) -> Result<(), Failed>
    ensures { Writes K.written K.errors K.inners sink.old sink.new (32 ∷ argument_text (contents_of script.now) locals.now argument_kind argument) result }
{
    write_spaced_field(
        sink,
        &argument_field(script, locals, argument_kind, argument),
    )
}
