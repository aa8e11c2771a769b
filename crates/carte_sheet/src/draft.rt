ghost use Rattle.std.specs.Prelude.{◌≡◌};
ghost use Rattle.carte_name.specs.declared.kind.Kind.TheVariants.{Sheet};
ghost use Rattle.carte_book.specs.Drafts.{kind_of};

/// The keys of a sheet as far as they are read.
#[derive(Drop)]
pub(crate) struct Draft {
    pub(crate) keys: carte_book::Draft,
    ghost is_sheet: { kind_of keys ≡ Sheet },
}
