//! What is true of the meaning of every text.
ghost use Rattle.pil_meaning.specs.Soundness.{UnbrokenIsSound};
ghost use Rattle.pil_meaning.specs.Fitting.{NamedFits};
ghost use Rattle.pil_meaning.specs.Closed.{NamedIsClosed};
ghost use Rattle.pil_meaning.specs.Standing.{MeaningIsReading};
ghost use Rattle.pil_meaning.specs.Given.{ShortIsCountable, TextHasSigns, TokensHaveNumbers, TokensHaveSigns};

/// The law of soundness: a short file that breaks no rule of names, sizes, widths, cycles and marks
/// has a sound meaning. The call computes nothing.
pub fn unbroken_is_sound()
    ensures sound { UnbrokenIsSound }
{}

/// The law of sizes: the numbers of a short file fit where the tree keeps them, if no rule of names,
/// rows and widths is broken. The call computes nothing.
pub fn named_fits()
    ensures fits { NamedFits }
{}

/// The law of closed namespaces: in a short file whose names are declared and unmixed, an
/// intermediate names intermediates of its own namespace alone. The call computes nothing.
pub fn named_is_closed()
    ensures closed { NamedIsClosed }
{}

/// The law of tokens: the numbers of a file that is read from tokens are below the order of the
/// field, and it has as many `;`, `,` and `{` as they; a text has at least as many as its tokens; and
/// the names of a file can be counted that has at most 2^20 of them. The call computes nothing.
pub fn tokens_give()
    ensures numbers { TokensHaveNumbers }
    ensures signs { TokensHaveSigns }
    ensures text { TextHasSigns }
    ensures countable { ShortIsCountable }
{}

/// The law of reading: the meaning of an outline has its namespaces in their order, each with its rows
/// and with its items read one by one, and its publics. The call computes nothing.
pub fn meaning_is_reading()
    ensures reading { MeaningIsReading }
{}
