//! Exports (WebAssembly 1.0, 3.4.9).

ghost use Rattle.std.specs.Prelude.{◌≡◌, ◌↔◌, IfOk, IsTrue, map};
ghost use Rattle.ms_rules.specs.Modules.{AreDistinct};
ghost use Rattle.ms_valid.specs.refinement.Heads.{ExportIn};

use ms_module::{Export, ExportDesc};
use ms_rules::Context;
use std::alloc::{AllocError, Global};
use std::collections::BTreeSet;

/// Whether what is exported is there.
pub fn is_export_typed(context: &Context, desc: ExportDesc) -> bool
    ensures { IsTrue result ↔ ExportIn context.now desc }
{
    match desc {
        ExportDesc::Func(index) => (index as usize) < context.funcs_len(),
        ExportDesc::Table(index) => (index as usize) < context.tables().len(),
        ExportDesc::Memory(index) => (index as usize) < context.memories().len(),
        ExportDesc::Global(index) => (index as usize) < context.globals().len(),
    }
}

/// Whether no two exports have one name.
pub fn are_names_distinct(alloc: Global, exports: &[Export]) -> Result<bool, AllocError>
    ensures { IfOk result (λ b. IsTrue b ↔ AreDistinct (map (λ e. e.name) exports.now)) }
{
    let mut seen = BTreeSet::new(alloc);
    for export in exports {
        if !seen.insert(export.name.as_str())? {
            return Ok(false);
        }
    }
    Ok(true)
}
