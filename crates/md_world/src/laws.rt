// What the limits are.
ghost use Rattle.std.specs.Prelude.{◌≡◌};
ghost use Rattle.md_world.specs.Limits.{standard};
ghost use Rattle.md_world.specs.declared.TheConstants.Limits.{STANDARD};

/// The limits of the shipped server are those of the definition.
pub fn limits_are_standard()
    ensures { STANDARD ≡ standard }
{}
