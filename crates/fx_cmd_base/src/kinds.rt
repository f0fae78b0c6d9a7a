//! The words for kinds of refusals: the names of the variants.

ghost use Rattle.std.specs.Prelude.{◌≡◌};
ghost use Rattle.fx_cmd_base.specs.RefusalWords.{config_kind, type_kind};

use fx_c_types_rules::fault::TypeKind;
use fx_config::ConfigError;

/// The word for a refusal of a configuration.
pub fn config_kind(error: ConfigError) -> &'static str
    ensures { result.now ≡ config_kind error }
{
    match error {
        ConfigError::NotToml => "NotToml",
        ConfigError::UnknownField => "UnknownField",
        ConfigError::Missing => "Missing",
        ConfigError::WrongType => "WrongType",
        ConfigError::OutOfRange => "OutOfRange",
        ConfigError::TwoPlaces => "TwoPlaces",
        ConfigError::OutOfMemory => "OutOfMemory",
    }
}

/// The word for a type rule.
pub fn type_kind(kind: TypeKind) -> &'static str
    ensures { result.now ≡ type_kind kind }
{
    match kind {
        TypeKind::Twice => "Twice",
        TypeKind::UnknownType => "UnknownType",
        TypeKind::TooLarge => "TooLarge",
        TypeKind::TooManyParameters => "TooManyParameters",
        TypeKind::Initialiser => "Initialiser",
        TypeKind::UnknownName => "UnknownName",
        TypeKind::NotInteger => "NotInteger",
        TypeKind::NotPointer => "NotPointer",
        TypeKind::NotLvalue => "NotLvalue",
        TypeKind::Mismatch => "Mismatch",
        TypeKind::Arguments => "Arguments",
        TypeKind::ReturnType => "ReturnType",
        TypeKind::CrossCall => "CrossCall",
        TypeKind::NotEntry => "NotEntry",
        TypeKind::BreakOutside => "BreakOutside",
        TypeKind::FrameTooLong => "FrameTooLong",
        TypeKind::NoMain => "NoMain",
    }
}
