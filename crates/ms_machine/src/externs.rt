//! What imports are given, and why they are given nothing.

use ms_host::Host as HostFunc;

/// What an import may be given (WebAssembly 1.0, 4.2.11): a function of the host, or what stands at an address of the store.
#[derive(Clone, Copy, PartialEq, Eq)]
pub enum Extern {
    /// A function of the host.
    Host(HostFunc),
    /// The function of this address.
    Func(u32),
    /// The table of this address.
    Table(u32),
    /// The linear memory of this address.
    Memory(u32),
    /// The global of this address.
    Global(u32),
}

/// Why modules are not linked.
#[derive(Clone, Copy, PartialEq, Eq)]
pub enum Why {
    /// An import is from no module before, nor from `env` or `c`.
    NoModule,
    /// The module doesn't export the name; `c` looks for functions alone.
    NoExport,
    /// What is exported is of another kind.
    Kind,
    /// What is exported is of another type, or its limits are wider.
    Signature,
    /// A table of more than 65,536 entries (item 0), or a memory of more than 1,024 pages (item 1).
    TooLarge,
    /// Elements, or data, that reach past the end. Elements are numbered from 0, and data goes on behind them.
    Fit,
}
