//! What holds of the generated network.

ghost use Rattle.std.specs.Prelude.{IsOk};
ghost use Rattle.misp_script.specs.Network.{description_at};
ghost use Rattle.misp_generated.specs.Network.{description_text};

/// Its description has no fault.
pub fn the_description_has_no_fault()
    ensures { IsOk (description_at description_text) }
{}
