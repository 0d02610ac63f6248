ghost use Rattle.std.specs.Prelude.{◌≡◌};
ghost use Rattle.cr_syntax_machine.specs.MachineBody.{may_label, may_mark};
ghost use Rattle.cr_decls.specs.Programs.{labels_of};

/// Which labels a statement may have (C11 6.8.1).
#[derive(Clone, Copy, PartialEq, Eq, Debug)]
pub(crate) enum Labels {
    /// All, among the items of a switch's own block.
    OwnBlock,
    /// An identifier, but no `case` and no `default`, among the items of another block.
    InBlock,
    /// None.
    Nowhere,
}

/// Whether `case` and `default` may label it.
pub(crate) fn may_label(labels: Labels) -> bool
    ensures { result ≡ may_label (labels_of labels) }
{
    match labels {
        Labels::OwnBlock => true,
        Labels::InBlock | Labels::Nowhere => false,
    }
}

/// Whether an identifier may.
pub(crate) fn may_mark(labels: Labels) -> bool
    ensures { result ≡ may_mark (labels_of labels) }
{
    match labels {
        Labels::OwnBlock | Labels::InBlock => true,
        Labels::Nowhere => false,
    }
}
