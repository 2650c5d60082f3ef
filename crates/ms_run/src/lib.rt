//! The commands of the program: `exec`, `run`, `check`, `asm`, `dis`, `compile`, `judge` and `stress`, each a call over a shelf, an input and two sinks.
//!
//! It stands on the readers and writers of both forms of modules, on C's lexer, parser, typing and compiler, on validation (`ms_valid`), linking (`ms_link`), runs of tasks
//! (`ms_tasks`), texts of jobs (`ms_job`), the judge of traces (`ms_monitor`) and the objects outside (`ms_outside`). Read
//! `specs/Answers.antt` and `specs/Jobs.antt` first, the tables of answers, each with its cause; `specs/Executions.antt` has the run behind them, and
//! `specs/Reporting.antt` and `specs/Flows.antt` say what the objects outside have to do with an answer.
#![tactic(auto)]

mod check;
mod convert;
mod dump;
mod execution;
mod fetch;
mod gathering;
mod judging;
mod lines;
mod loading;
mod reached;
mod report;
mod running;
mod source;
mod standing;
mod status;
mod stressing;
mod telling;

pub use check::check_file;
pub use convert::{asm_file, compile_file, dis_file};
pub use gathering::Naming;
pub use judging::judge;
pub use loading::{LoadFault, load_module};
pub use report::answer;
pub use running::{exec, run_job, run_parsed};
pub use source::SourceFault;
pub use status::Status;
pub use stressing::{stress, stress_over};
