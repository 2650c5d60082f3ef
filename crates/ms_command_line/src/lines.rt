//! The usage lines.

ghost use Rattle.std.specs.Prelude.{◌≡◌};
ghost use Rattle.ms_command_line.specs.Commands.{usage_lines};

/// A usage line for each command, in their order, each ended by LF.
pub fn usage() -> &'static str
    ensures { result.now ≡ usage_lines }
{
    concat!(
        "usage: mswasm exec FILE [--budget N] [--memory N]\n",
        "usage: mswasm run JOB\n",
        "usage: mswasm check FILE\n",
        "usage: mswasm asm FILE OUT\n",
        "usage: mswasm dis FILE OUT\n",
        "usage: mswasm compile FILE OUT\n",
        "usage: mswasm judge FILE [--memory N]\n",
        "usage: mswasm stress SEED COUNT\n",
    )
}
