//! A program with its code.
use code_forms::StagedCode;
use domino_check::Checked;
use std::marker::Model;

/// A program and its staged code. The type keeps that the code has the source's groups, units and places, and means on
/// every header and all cells what the source means.
#[derive(Drop)]
pub struct Compiled {
    /// The program that was compiled.
    pub source: Checked,
    /// Its code.
    pub code: StagedCode,
}

impl Model for Compiled {
    ghost use Rattle.domino_compile.specs.Compiled.{Translation, translation_code, IsCompiled};

    ghost Value = { Translation };

    ghost coded = { translation_code };

    ghost view = { λ c. record { program = c.source; code = c.code } };

    ghost invariant = { λ c. IsCompiled c.source c.code };
}
