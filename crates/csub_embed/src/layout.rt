// How the text of a component is laid out.

/// The file of a component that a file has.
#[derive(Clone, Copy)]
pub enum EmbedFile {
    /// A header with all of it, whose functions are static and inline.
    Header,
    /// Of two files the header, with the structures and the prototypes of the functions.
    Declarations,
    /// Of two files the one with the functions, which includes the header.
    Definitions,
}

/// How a text of a component is laid out.
#[derive(Clone, Copy)]
pub struct EmbedLayout {
    /// Whether each latch takes one bit of the state. Else it takes a whole `bool`.
    pub packed: bool,
    /// The file of the component that the text has.
    pub file: EmbedFile,
}

/// A layout that is known as a type, by which `EmbedWriter` writes.
pub trait FixedLayout {
    ghost use Rattle.std.specs.Prelude.{◌≡◌};
    ghost use Rattle.csub_embed.specs.declared.layout.EmbedLayout.{EmbedLayout};

    ghost layout: { EmbedLayout };

    /// The layout.
    fn layout() -> EmbedLayout
        ensures { result ≡ layout };
}

/// The layout of a header.
pub struct HeaderLayout<const PACKED: bool>;

impl<const PACKED: bool> FixedLayout for HeaderLayout<PACKED> {
    ghost use Rattle.csub_embed.specs.declared.layout.EmbedFile.TheVariants.{Header};

    ghost layout = { record { packed = PACKED; file = Header } };

    fn layout() -> EmbedLayout {
        EmbedLayout {
            packed: PACKED,
            file: EmbedFile::Header,
        }
    }
}

/// The layout of declarations.
pub struct DeclarationsLayout<const PACKED: bool>;

impl<const PACKED: bool> FixedLayout for DeclarationsLayout<PACKED> {
    ghost use Rattle.csub_embed.specs.declared.layout.EmbedFile.TheVariants.{Declarations};

    ghost layout = { record { packed = PACKED; file = Declarations } };

    fn layout() -> EmbedLayout {
        EmbedLayout {
            packed: PACKED,
            file: EmbedFile::Declarations,
        }
    }
}

/// The layout of definitions.
pub struct DefinitionsLayout<const PACKED: bool>;

impl<const PACKED: bool> FixedLayout for DefinitionsLayout<PACKED> {
    ghost use Rattle.csub_embed.specs.declared.layout.EmbedFile.TheVariants.{Definitions};

    ghost layout = { record { packed = PACKED; file = Definitions } };

    fn layout() -> EmbedLayout {
        EmbedLayout {
            packed: PACKED,
            file: EmbedFile::Definitions,
        }
    }
}
