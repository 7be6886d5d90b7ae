//! Kinds of rows, and the state that a row keeps for its kind.

ghost use Rattle.std.specs.Prelude.{◌≡◌};
ghost use Rattle.std.specs.List.{list_any};
ghost use Rattle.tx_tree.specs.Kind.{holds_children, is_screen, kind_name, base_name, is_called, can_focus, first_state, private_at, fresh, has_form, kind_named};

use crate::Name;

/// The kind of a row. The first six may have children.
#[derive(Clone, Copy, Debug, PartialEq, Eq)]
pub enum Kind {
    Screen,
    Container,
    Vertical,
    Horizontal,
    Grid,
    VerticalScroll,
    Static,
    Label,
    Button,
    Checkbox,
    Input,
    OptionList,
    ProgressBar,
    Header,
    Footer,
    /// A kind of the application's own, whose object is handed in under this name.
    Handed(Name),
}

// What holds of all rows of a kind.
#[derive(Clone, Copy)]
struct KindRow<'a> {
    name: &'a str,
    // The name of its base. The base of Static and of Custom is Widget.
    base: &'a str,
    holds_children: bool,
    can_focus: bool,
    // The private state that a row with an empty text begins with.
    private: Private,
}

// The columns in the order of the table below.
fn columns<'a>(
    name: &'a str,
    base: &'a str,
    holds_children: bool,
    can_focus: bool,
    private: Private,
) -> KindRow<'a>
    ensures name { result.name.now ≡ name.now }
    ensures base { result.base.now ≡ base.now }
    ensures holds_children { result.holds_children ≡ holds_children }
    ensures can_focus { result.can_focus ≡ can_focus }
    ensures private { result.private ≡ private }
{
    KindRow {
        name,
        base,
        holds_children,
        can_focus,
        private,
    }
}

// The kinds that are built in.
const BUILT_IN: [Kind; 15] = [
    Kind::Screen,
    Kind::Container,
    Kind::Vertical,
    Kind::Horizontal,
    Kind::Grid,
    Kind::VerticalScroll,
    Kind::Static,
    Kind::Label,
    Kind::Button,
    Kind::Checkbox,
    Kind::Input,
    Kind::OptionList,
    Kind::ProgressBar,
    Kind::Header,
    Kind::Footer,
];

const NEW_BAR: Private = Private::Bar {
    done: 0,
    total: 100,
};

impl Kind {
    // The table of the kinds: the name, the base, whether it may have children, whether it can have
    // the focus, and the private state that a row with an empty text begins with.
    fn table_row(&self) -> KindRow<'_>
        ensures name { result.name.now ≡ kind_name self.now }
        ensures base { result.base.now ≡ base_name self.now }
        ensures holds_children { result.holds_children ≡ holds_children self.now }
        ensures can_focus { result.can_focus ≡ can_focus self.now }
        ensures private { result.private ≡ first_state self.now }
    {
        match self {
            Kind::Screen => columns("Screen", "Widget", true, false, Private::Plain),
            Kind::Container => columns("Container", "Widget", true, false, Private::Plain),
            Kind::Vertical => columns("Vertical", "Widget", true, false, Private::Plain),
            Kind::Horizontal => columns("Horizontal", "Widget", true, false, Private::Plain),
            Kind::Grid => columns("Grid", "Widget", true, false, Private::Plain),
            Kind::VerticalScroll => columns("VerticalScroll", "Widget", true, true, Private::Plain),
            Kind::Static => columns("Static", "Widget", false, false, Private::Plain),
            Kind::Label => columns("Label", "Static", false, false, Private::Plain),
            Kind::Button => columns("Button", "Widget", false, true, Private::Plain),
            Kind::Checkbox => columns("Checkbox", "Widget", false, true, Private::On(false)),
            Kind::Input => columns("Input", "Widget", false, true, Private::Cursor(0)),
            Kind::OptionList => columns("OptionList", "Widget", false, true, Private::Chosen(0)),
            Kind::ProgressBar => columns("ProgressBar", "Widget", false, false, NEW_BAR),
            Kind::Header => columns("Header", "Widget", false, false, Private::Plain),
            Kind::Footer => columns("Footer", "Widget", false, false, Private::Plain),
            Kind::Handed(name) => columns(name.as_str(), "Custom", false, true, Private::Plain),
        }
    }

    /// The built-in kind of this name, if there is one.
    #[tactic(auto, unfolding(crate::specs::Kind::kind_named))]
    pub fn named(name: &str) -> Option<Kind>
        ensures { result ≡ kind_named name.now }
    {
        BUILT_IN.iter().copied().find(|kind| name == kind.name())
    }

    /// Whether rows of this kind may have children.
    pub fn holds_children(self) -> bool
        ensures { result ≡ holds_children self }
    {
        self.table_row().holds_children
    }

    /// The name of the kind, as it stands in a tree file.
    pub fn name(&self) -> &str
        ensures { result.now ≡ kind_name self.now }
    {
        self.table_row().name
    }

    /// Whether a type selector of this name names the kind: whether it is the kind's own name or
    /// that of one of its bases. The base of Label is Static, that of a kind that is handed in is
    /// Custom, and that of all others, of Static and of Custom is Widget.
    pub fn is_called(&self, name: &str) -> bool
        ensures { result ≡ is_called self.now name.now }
    {
        let row = self.table_row();
        name == row.name || name == row.base || name == "Widget"
    }

    /// Whether a row of this kind can have the focus.
    pub fn can_focus(self) -> bool
        ensures { result ≡ can_focus self }
    {
        self.table_row().can_focus
    }

    /// Whether this is the Screen.
    pub fn is_screen(self) -> bool
        ensures { result ≡ is_screen self }
    {
        matches!(self, Kind::Screen)
    }
}

/// What a row keeps for its kind beside its text.
#[derive(Clone, Copy, Debug, PartialEq, Eq)]
pub enum Private {
    Plain,
    /// The cursor of an Input: a byte offset in its text.
    Cursor(u32),
    /// Whether a Checkbox is on.
    On(bool),
    /// The line of an OptionList that is chosen, from 0.
    Chosen(u32),
    /// How far a ProgressBar is.
    Bar { done: u32, total: u32 },
}

impl Private {
    /// The state that a row of this kind begins with: of an Input the cursor at the end of its
    /// text, which has `size` bytes; a Checkbox is off, of an OptionList the first line is chosen,
    /// and a ProgressBar is at 0 of 100.
    pub fn fresh(kind: Kind, size: u32) -> Private
        ensures { result ≡ fresh kind size }
    {
        private_at(size, kind.table_row().private)
    }

    /// Whether the state is of the form that rows of this kind have: of a Checkbox whether it is
    /// on, of an Input a cursor, of an OptionList a chosen line, of a ProgressBar how far it is, and
    /// of every other kind nothing.
    pub fn has_form(self, kind: Kind) -> bool
        ensures { result ≡ has_form kind self }
    {
        match kind.table_row().private {
            Private::Plain => matches!(self, Private::Plain),
            Private::Cursor(_) => matches!(self, Private::Cursor(_)),
            Private::On(_) => matches!(self, Private::On(_)),
            Private::Chosen(_) => matches!(self, Private::Chosen(_)),
            Private::Bar { .. } => matches!(self, Private::Bar { .. }),
        }
    }
}

/// The private state once the text is so long: a cursor then stands at its end, and of an
/// OptionList the first line is chosen.
pub fn private_at(size: u32, private: Private) -> Private
    ensures { result ≡ private_at size private }
{
    match private {
        Private::Cursor(_) => Private::Cursor(size),
        Private::Chosen(_) => Private::Chosen(0),
        other => other,
    }
}
