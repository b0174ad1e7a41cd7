// The versions of the schema, and the highest security level of each.
ghost use Rattle.std.specs.Prelude.{◌≡◌};
ghost use Rattle.schema.specs.Table.{known_version, level_top};

// One of the seven.
pub fn known_version(version: u64) -> bool
    ensures { result ≡ known_version version }
{
    matches!(version, 1 | 2 | 3 | 4 | 100 | 200 | 300)
}

// StrongBox where the version's schema prints it.
pub fn level_top(version: u32) -> u64
    ensures { result ≡ level_top version }
{
    if 3 <= version { 2 } else { 1 }
}
