//! What names are used as, what they are declared as, and where they are looked up.

/// What a name is used as.
#[derive(Clone, Copy, Debug, PartialEq, Eq)]
pub enum Role {
    /// A length or a start value.
    Size,
    /// A bare name in an expression.
    Value,
    /// A bare name that is assigned.
    Target,
    /// The first name of a field access.
    Packet,
    /// The second name of a field access.
    Field,
    /// A name with an index.
    Array,
    /// The name of a call with so many arguments.
    Call(usize),
    /// The type of the function's packet.
    Struct,
}

impl Role {
    ghost use Rattle.std.specs.Prelude.{◌≡◌};
    ghost use Rattle.domino_names.specs.Checks.{class_for, takes};

    /// The class in which a name that is used so is declared.
    pub(crate) fn class(self) -> Class
        ensures { result ≡ class_for self }
    {
        match self {
            Role::Field => Class::Fields,
            Role::Struct => Class::Structs,
            Role::Size | Role::Value | Role::Target | Role::Packet | Role::Array | Role::Call(_) =>
                Class::Others,
        }
    }

    /// Whether a name of this kind can be used so.
    pub(crate) fn takes(self, kind: Kind) -> bool
        ensures { result ≡ takes self kind }
    {
        match self {
            Role::Size => matches!(kind, Kind::Define),
            Role::Value => matches!(kind, Kind::Define | Kind::Scalar),
            Role::Target => matches!(kind, Kind::Scalar),
            Role::Packet => matches!(kind, Kind::Packet),
            Role::Field => matches!(kind, Kind::Field),
            Role::Array => matches!(kind, Kind::Array),
            Role::Call(_) => matches!(kind, Kind::Hash),
            Role::Struct => matches!(kind, Kind::Struct),
        }
    }
}

/// What a name is declared as.
#[derive(Clone, Copy, Debug, PartialEq, Eq)]
pub enum Kind {
    /// A field of the packet.
    Field,
    /// The packet's struct.
    Struct,
    /// A name for a number.
    Define,
    /// A register.
    Scalar,
    /// A register array, which has a length.
    Array,
    /// The function.
    Function,
    /// The function's packet.
    Packet,
    /// A hash function.
    Hash,
}

impl Kind {
    ghost use Rattle.std.specs.Prelude.{◌≡◌};
    ghost use Rattle.domino_names.specs.Declarations.{class_of};

    /// The class in which a name of this kind is declared.
    pub(crate) fn class(self) -> Class
        ensures { result ≡ class_of self }
    {
        match self {
            Kind::Field => Class::Fields,
            Kind::Struct => Class::Structs,
            Kind::Define
            | Kind::Scalar
            | Kind::Array
            | Kind::Function
            | Kind::Packet
            | Kind::Hash => Class::Others,
        }
    }
}

/// What a declared name stands for. Arrays are numbered in order of declaration, and so are fields.
#[derive(Clone, Copy)]
pub enum Symbol {
    /// A field of the packet, by its number.
    Field(usize),
    /// The packet's struct.
    Struct,
    /// A number.
    Define(i32),
    /// A register, by its number among the arrays.
    Scalar(usize),
    /// A register array, by its number.
    Array(usize),
    /// The function.
    Function,
    /// The function's packet.
    Packet,
    /// A hash function.
    Hash,
}

impl Symbol {
    ghost use Rattle.std.specs.Prelude.{◌≡◌};
    ghost use Rattle.domino_names.specs.Symbols.{kind_of};

    /// The kind of what the name stands for.
    pub(crate) fn kind(self) -> Kind
        ensures { result ≡ kind_of self }
    {
        match self {
            Symbol::Field(_) => Kind::Field,
            Symbol::Struct => Kind::Struct,
            Symbol::Define(_) => Kind::Define,
            Symbol::Scalar(_) => Kind::Scalar,
            Symbol::Array(_) => Kind::Array,
            Symbol::Function => Kind::Function,
            Symbol::Packet => Kind::Packet,
            Symbol::Hash => Kind::Hash,
        }
    }
}

/// A set of names in which each is declared once.
#[derive(Clone, Copy, Debug, PartialEq, Eq, Hash)]
pub enum Class {
    /// The fields of the packet.
    Fields,
    /// The name of the packet's struct.
    Structs,
    /// All other names.
    Others,
}
