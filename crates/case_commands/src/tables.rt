//! The command `table`.
ghost use Rattle.std.specs.Prelude.{IfOk};
ghost use Rattle.command_ends.specs.Ends.{streams};
ghost use Rattle.command_ends.specs.Runs.{IsOfAnswer};
ghost use Rattle.case_commands.specs.TableOutcome.{IsToldOf, RunsTable};

use byte_streams::{Sink, Source};
use case_text::{Table, read_lone_table};
use command_ends::{Answer, Command, InputFault, Status, WholeText, number_of, run_command};
use lift_text::{LineReader, TextCode, put_line};
use motion_table::Triple;
use std::alloc::{AllocError, Global};

/// The line that is told of a table, and its status.
fn table_answer(alloc: Global, table: &Table) -> Result<Answer, AllocError>
    ensures told { IfOk result (λ answer. IsToldOf table.now answer.status answer.text.items) }
    ensures status { IfOk result (λ answer. IsOfAnswer answer.status) }
{
    let mut text = Vec::new(alloc);
    match table.judge() {
        Ok(()) => {
            put_line(&mut text, b"table ok", &[u64::from(table.floors())])?;
            Ok(Answer {
                status: Status::Done,
                text,
            })
        }
        Err(Triple { f, g, h }) => {
            let code = u64::from(number_of(TextCode::ShorterWay));
            let numbers = [code, u64::from(f), u64::from(g), u64::from(h)];
            put_line(&mut text, b"no", &numbers)?;
            Ok(Answer {
                status: Status::Refused,
                text,
            })
        }
    }
}

/// Tells of tables whether some way over a third floor is shorter.
#[derive(Clone, Copy)]
struct Tables;

impl WholeText for Tables {
    ghost use Rattle.case_commands.specs.TableOutcome.{table_form};

    type Value = Table;

    ghost form = { λ _. table_form };

    fn read<S: Source>(
        &self,
        alloc: Global,
        lines: &mut LineReader<S>,
    ) -> Result<Table, InputFault> {
        match read_lone_table(alloc, lines) {
            Ok(table) => Ok(table),
            Err(fault) => Err(InputFault::Text(fault)),
        }
    }
}

impl Command for Tables {
    ghost use Rattle.case_commands.specs.TableOutcome.{IsToldOf};

    ghost told = { λ _. IsToldOf };

    fn answer(&self, alloc: Global, table: &Table) -> Result<Answer, AllocError> {
        table_answer(alloc, table)
    }
}

/// Reads a table of measured travel times, and writes that no way over a third floor is shorter, `table ok
/// FLOORS`, or the first three floors for which one is, `no 52 F G H`; or what is wrong with the input.
pub fn table<S: Source, K: Sink>(alloc: Global, source: &mut S, sink: &mut K) -> Status
    ensures { RunsTable
        (streams (S.left source.old) (K.taken sink.old) (S.faults source.old) (K.faults sink.old))
        (streams (S.left source.new) (K.taken sink.new) (S.faults source.new)
        (K.faults sink.new)) result }
{
    run_command(alloc, &Tables, source, sink)
}
