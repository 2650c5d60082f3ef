//! Which function a task runs.

ghost use Rattle.std.specs.Prelude.{◌≡◌, find};
ghost use Rattle.std.specs.Option.{option_copied};
ghost use Rattle.std.specs.Str.{bytes_eq};
ghost use Rattle.ms_tasks.specs.Tasks.{exported_func, exported_task, is_task_result, is_task_type, of_task_type, task_address, task_of_instance};

use ms_machine::{Instance, Store};
use ms_module::{Export, ExportDesc};
use ms_segment::SegmentMemory;
use ms_task::FuncInst;
use ms_types::{SharedType, ValType};

/// Whether a task may give this: nothing, or one number.
fn is_task_result(results: &[ValType]) -> bool
    ensures { result ≡ is_task_result results.now }
{
    matches!(results, [] | [ValType::I32] | [ValType::I64])
}

/// Whether a function of this type can be a task.
fn is_task_type(t: &SharedType) -> bool
    ensures { result ≡ is_task_type t.now }
{
    matches!(t.params(), []) && is_task_result(t.results())
}

/// The address, where the function there can be a task.
fn of_task_type(funcs: &[FuncInst], address: u32) -> Option<u32>
    ensures { result ≡ of_task_type funcs.now address }
{
    match funcs.get(address as usize) {
        Some(f) if is_task_type(&f.ty) => Some(address),
        _ => None,
    }
}

/// The export of this name.
fn export_named<'a>(exports: &'a [Export], name: &str) -> Option<&'a Export>
    ensures { option_copied result ≡ find (λ e. bytes_eq name.now e.name) exports.now }
{
    exports.iter().find(|e| name == e.name.as_str())
}

/// The function that is exported so.
fn exported_func(instance: &Instance, desc: ExportDesc) -> Option<u32>
    ensures { result ≡ exported_func instance.now desc }
{
    let ExportDesc::Func(x) = desc else {
        return None;
    };
    instance.funcs.as_slice().get(x as usize).copied()
}

/// The same, where it can be a task.
fn exported_task(funcs: &[FuncInst], instance: &Instance, export: &Export) -> Option<u32>
    ensures { result ≡ exported_task funcs.now instance.now export.now }
{
    match exported_func(instance, export.desc) {
        Some(address) => of_task_type(funcs, address),
        None => None,
    }
}

/// The function that an instance exports by a name, where it can be a task.
fn task_of_instance(funcs: &[FuncInst], name: &str, instance: &Instance) -> Option<u32>
    ensures { result ≡ task_of_instance funcs.now name.now instance.now }
{
    match export_named(instance.exports.as_slice(), name) {
        Some(export) => exported_task(funcs, instance, export),
        None => None,
    }
}

/// The function that the module of a number exports by a name, where it can be a task.
pub(crate) fn task_address<M: SegmentMemory>(
    store: &Store<M>,
    number: u32,
    name: &str,
) -> Option<u32>
    ensures { result ≡ task_address store.now number name.now }
{
    match store.instances().get(number as usize) {
        Some(instance) => task_of_instance(store.funcs(), name, instance),
        None => None,
    }
}
