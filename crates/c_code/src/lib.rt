//! The module of a typed unit of C, as a definition: which instructions stand for each node of the typed tree, and what a module
//! has beside them.
//!
//! There is no code. It stands on the typed tree (`c_typed`), on how code is put together (`ms_emit`) and on the module as data
//! (`ms_module`). Read `specs/Modules.antt` first, of which `compiled` is the module of a unit; `specs/Expressions.antt` and
//! `specs/Statements.antt` have a line for each node.
#![tactic(auto)]
