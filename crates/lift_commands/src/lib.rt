//! The commands of `lift`: from the words of the command line and a source to a sink and a status. It is a
//! library so that tests can call it with sources and sinks in memory.
//!
//! # What is promised
//!
//! Three clauses of `run`:
//!
//! - `runs`: what the words ask for is done. `RunsRequest` (`specs/Runs.antt`) is a table of requests: for each
//!   it names what its command leaves, in the definitions of the command.
//! - `refuses`: other words get the usage line (`RefusesWords`), unless the sink fails or memory runs out.
//! - `unread`: words that ask for no input (`AskForNoInput`, `specs/Unread.antt`), those of `make` and such as
//!   are not taken, leave the source as it was, its count of faults too, with every status.
//!
//! What is left of a request says, for each status, what was read and written (`Ends` of `command_ends`): a
//! text that is due was written whole, and with Write a part of one, where the sink's count of faults rose;
//! with Read the source's rose, and nothing was written; with Memory nothing was written. With Input the
//! line that was written refuses the input, with what is wrong with it, and the end of the line that it names
//! shows in the bytes that were taken. And it says that what the input asks for comes, unless the source or the
//! sink fails or memory runs out: of an input that says something an answer (`answers` of `Runs`), of any
//! other a refusal (`refuses`). What is said of the input holds where the source tells what it has left.
//!
//! # The commands
//!
//! **`solve`.** Status 0: the whole input was read and is the text of an accepted snapshot, and what was
//! written is an **optimal** plan of it, its cost and an equal bound, for 1 to 16 workers, and without
//! `--brief` the certificate that proves them. Status 3: the same of a feasible plan, a bound that no
//! feasible plan's cost is below, and the limit that was reached: of rounds or moves, which a tree of the
//! search proves, or of claims, where those that are due in it go beyond that; never where the limits are
//! enough. Status 5: the input is no such text, and the line
//! written tells its first bad line with its one code, or that it is too long. A case and no fault give
//! status 0, 3 or 8; any other input and no fault give 5 or 8. Where the input ends with LF and has at most
//! 1,000,000 bytes, and the limits are at most the defaults, the input followed by all that was written is an
//! input of `check`, whose verdict is yes.
//!
//! **`check`.** The whole input was read and is the text of an accepted snapshot, of an answer to it and of a
//! certificate, and what was written is its verdict, the same for 1 to 16 workers. Status 0 exactly where it
//! is yes, and then the plan is feasible and has its cost, no feasible plan costs less than the bound, and no
//! claim is exceeded; status 4 exactly where it is no, with the first reason. With claims that are enough for
//! any search it is yes exactly where the certificate proves. Status 5: the input is no such text, and the
//! line written tells its first bad line with its one code, or that it is too long.
//!
//! **`day`.** Where the input begins with a building, an opening snapshot of it and the header of rows, the
//! rows after it are done and the log says so: each does exactly its step of the day, with a feasible plan,
//! its cost and a bound that no feasible plan's cost is below where it is accepted, as a search within the
//! limits answers them, for 1 to 16 workers, and with `--certs` an answer and a certificate that proves the
//! bound; after each row no accepted call is lost, and by the events each boards once and is delivered once, in
//! time. Status 0: no accepted row has a bound below its cost; 3: some
//! has, and there the limits are not enough for the state. Status 5: the input does not begin so, and the
//! line tells its first bad line with its one code; or its rows do not end within the limit, told after the
//! log of those that do. Status 6: a read failed; where the header's line, with its LF, is not whole among the
//! bytes taken nothing is written, else the first line of the log and the lines of exactly the rows whose
//! lines are whole among them; 7: a write failed, and what was written is a beginning; 8: out of memory, and
//! what was written is a beginning. Such an input that is not too long and no fault give status 0, 3 or 8.
//!
//! **`report`.** Of the same day, and with the same statuses, the report of the definition over the served
//! calls, and nothing else.
//!
//! **`table`.** As `case_commands` says: the table of the input has no shorter way over a third floor
//! (status 0), or has one, with the first three floors (4); any other input is refused with its first bad
//! line (5).
//!
//! **`whatif`.** As `case_commands` says: what the last call of a case costs with each car, and how much
//! more it costs with the nearest car than with the best one, all exactly (status 0), or some by two ends
//! between which it lies (3), never where the limits are enough for each of the searches; any other input is
//! refused with its first bad line, or because no call can be asked about (5).
//!
//! **`banks`.** As `day_commands` says: for each bank of the input the log of the day of its own rows alone,
//! with no accepted call lost, and how many rows named no bank; status 0 where no accepted row of any bank has
//! a bound below its cost, 3 where some has; any other input is refused with its first bad line (5).
//!
//! **`root`.** As `case_commands` says: the best prices of turns at the root of a case, and the cheapest
//! plan in halves of their tours; status 0 exactly where the two meet, and then no prices and worths at the
//! root have a greater bound, as the mixture shows that was written; 3 where they do not. Any other input
//! is refused with its first bad line (5).
//!
//! **`audit`.** As `day_commands` says: of what `day` reads and the log that it wrote with certificates,
//! either that nothing is found, with how many rows are accepted and how many of these have a bound below
//! their cost (status 0), or what is found first (4); a bad line of the opening, of an answer or of a
//! certificate, and an input that is too long, is refused (5).
//!
//! **`make`.** The text of the generated case, which is read as that snapshot again; nothing is read. `make
//! --run`: the numbers of the case with the cost and the bound that a search of it with one worker answers;
//! status 0 exactly where they are equal, and then the cost is the least one; status 3 exactly where the
//! bound is below the cost, never where the limits are enough; nothing is read.
//!
//! Status 2 comes exactly where the words are not taken, with the usage line. Each other status comes exactly
//! when it is due, and says what was written.
//!
//! | request | what is left of it |
//! | --- | --- |
//! | `solve` | `RunsSolve`: a solution of the case is told (`IsSolution`, `SolveOutcome.antt` of `case_commands`) |
//! | `check` | `RunsCheck`: the verdict on what is stated (`IsVerdictOn`, `CheckOutcome.antt`) |
//! | `whatif`, `root`, `table` | `RunsWhatIf`, `RunsRoot`, `RunsTable` |
//! | `make` | `RunsMake`, `RunsSolvedCase` (`MakeOutcome.antt`) |
//! | `day`, `report` | `RunsDay`, `ReportsDay` (`DayOutcome.antt` of `day_commands`) |
//! | `banks`, `audit` | `RunsBanks`, `RunsAudit` |
//!
//! A further command has its words in `lift_words` and its function beside those of cases or of days, on
//! `command_ends`, which says how any command ends, and all of one that reads a whole text (`Runs`). Here it
//! takes one arm of `run_request`, a line of `RunsRequest` and one of `ReadsNothing`.
#![tactic(auto)]

mod running;

pub use command_ends::Status;
pub use running::run;
