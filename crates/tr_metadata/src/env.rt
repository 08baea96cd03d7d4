//! The environment of a trace.

ghost use Rattle.std.specs.Prelude.{◌≡◌, ◌++◌, ◌∷◌, codes, OnOk};
ghost use Rattle.std.specs.List.{flat_map};
ghost use Rattle.std.specs.String.{string_bytes};
ghost use Rattle.tr_metadata.specs.Metadata.{env_text, variable_text};

use crate::classes::push;
use std::alloc::{AllocError, Allocator};
use tr_events::Variable;

/// Adds a variable: a number, or a text between quotes.
fn push_variable<A: Allocator, B: Allocator>(
    text: &mut String<B>,
    variable: &Variable<A>,
) -> Result<(), AllocError>
    ensures { OnOk result (string_bytes text.new ≡ string_bytes text.old ++ variable_text variable.now) }
{
    if variable.is_told_as_number() {
        write!(text, "  {} = {};\n", variable.name(), variable.value())
    } else {
        write!(text, "  {} = \"{}\";\n", variable.name(), variable.value())
    }
}

/// Adds variables.
fn push_variables<A: Allocator, B: Allocator>(
    text: &mut String<B>,
    env: &[Variable<A>],
) -> Result<(), AllocError>
    ensures { OnOk result (string_bytes text.new ≡ string_bytes text.old ++ flat_map variable_text env.now) }
{
    for variable in env {
        push_variable(text, variable)?;
    }
    Ok(())
}

/// Adds these variables, in braces.
fn push_block<A: Allocator, B: Allocator>(
    text: &mut String<B>,
    env: &[Variable<A>],
) -> Result<(), AllocError>
    ensures { OnOk result (string_bytes text.new
        ≡ string_bytes text.old ++ (codes "env {\n" ++ (flat_map variable_text env.now ++ codes "};\n\n"))) }
{
    push(text, "env {\n")?;
    push_variables(text, env)?;
    push(text, "};\n\n")
}

/// Adds the environment, if there is any.
pub(crate) fn push_env<A: Allocator, B: Allocator>(
    text: &mut String<B>,
    env: &[Variable<A>],
) -> Result<(), AllocError>
    ensures { OnOk result (string_bytes text.new ≡ string_bytes text.old ++ env_text env.now) }
{
    match env {
        [] => Ok(()),
        _ => push_block(text, env),
    }
}
