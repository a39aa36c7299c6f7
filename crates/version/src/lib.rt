// The version of what a host links and of the programs: it rises by one with each landing that adds or changes a function of the archive.
#![tactic(auto)]

ghost use Rattle.std.specs.Prelude.{◌≡◌};
ghost use Rattle.version.specs.Version.{version};

pub const VERSION: u64 = 16;

pub fn number() -> u64
    ensures { result ≡ version }
{
    VERSION
}
