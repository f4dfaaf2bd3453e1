//! Laws of the definitions. Each function does nothing: its contract is the law.

ghost use Rattle.psi_spec.specs.Laws.{
  RowsTurnColumns,
  ColumnsTurnBack,
  ColumnsAreClean,
  PaddingIsSeen,
  OpensColumns,
  OpensRows,
  DealtArePairs,
  ReceiverFilesReadBack,
  SenderFilesReadBack,
  OldReceiverFilesReadBack,
  OldSenderFilesReadBack,
  SetupsShowCommon,
  DealsShowCommon,
  StashShowsCommon,
  CrowdedExcludesPlacement,
  PickedIsPlacement,
};
ghost use Rattle.psi_spec.specs.HidingLaws.{ChangesBits, SetsAreHidden, StreamsAreOver};
ghost use Rattle.psi_spec.specs.PairedLaws.{ListsShowEqual, PairsFindShownLines, ListsAreHidden};
ghost use Rattle.psi_spec.specs.SessionLaws.{
  OrderIsHidden,
  SessionsHideOrder,
  SessionsDependOnColumns,
  OpenedColumnsAnswer,
  ReceiverStreamsAreWellFormed,
  SenderStreamsAreWellFormed,
  ReceiverStreamsTell,
  SenderStreamsTell,
  ReceiverStreamsHaveSizes,
  SenderStreamsHaveSizes,
  EndsMove,
  SessionsHaveStreams,
  WiresJoinStreams,
  SetupsHitShown,
  PairsFindShown,
};

/// Bit c of row j of columns is bit j of column c, and turning the rows gives the columns again.
pub fn rows_turn_columns()
    ensures bits { RowsTurnColumns }
    ensures back { ColumnsTurnBack }
{}

/// A column of the key stream has its size and the stream's bits, and no bit past its rows is set. Bytes of that size
/// have no padding bit set exactly where they have no such bit.
pub fn columns_are_clean()
    ensures clean { ColumnsAreClean }
    ensures seen { PaddingIsSeen }
{}

/// Each row that a sender opens is its row of chosen columns, xor what the choice word and the row of the columns that
/// came share. Where those columns are the chosen and the masked ones of one pair of column sets, for any row words, it
/// is the row of the zero columns, xor what the choice word and the row's word share.
pub fn opens_rows()
    ensures columns { OpensColumns }
    ensures rows { OpensRows }
{}

/// The two deals of a seed are a pair.
pub fn dealt_are_pairs()
    ensures { DealtArePairs }
{}

/// The file of a deal spells that deal, and so does its file of version 1 where the deal has the usual stash.
pub fn deal_files_read_back()
    ensures receiver { ReceiverFilesReadBack }
    ensures sender { SenderFilesReadBack }
    ensures old_receiver { OldReceiverFilesReadBack }
    ensures old_sender { OldSenderFilesReadBack }
{}

/// Each item that both ends have is shown, and each item that is shown shares its tag with the item that it names.
pub fn shows_common()
    ensures { SetupsShowCommon }
{}

/// The same for the two deals of any seed: at any placement of the receiver's items, and in the stash alone where it
/// has a row for each of them.
pub fn deals_show_common()
    ensures placed { DealsShowCommon }
    ensures stash { StashShowsCommon }
{}

/// Where some list of the items is crowded they have no placement: they would have more rows than there are. It is
/// the easy half of Hall's theorem, with the rows of the stash as the deficiency.
pub fn crowded_excludes_placement()
    ensures { CrowdedExcludesPlacement }
{}

/// What is picked is a placement, whatever the candidates.
pub fn picked_is_placement()
    ensures { PickedIsPlacement }
{}

/// The sender's stream is the same for its items in any order, and so are the bytes of the whole session.
pub fn order_is_hidden()
    ensures stream { OrderIsHidden }
    ensures session { SessionsHideOrder }
{}

/// Of its deals a session depends on id, session, key, tag length, stash, choice word and columns alone. So a record
/// that was made with deals of version 1 is judged the same with the renewed deals.
pub fn sessions_depend_on_columns()
    ensures { SessionsDependOnColumns }
{}

/// A sender that opens its columns in place sends the same: its hello, and the lists over the rows of what it opened.
pub fn opened_columns_answer()
    ensures { OpenedColumnsAnswer }
{}

/// What both ends send is well formed, and the bytes of a well-formed stream tell its count and its columns, or its
/// count and its lists.
pub fn streams_tell()
    ensures receivers { ReceiverStreamsAreWellFormed }
    ensures senders { SenderStreamsAreWellFormed }
    ensures columns { ReceiverStreamsTell }
    ensures lists { SenderStreamsTell }
{}

/// How long streams are.
pub fn streams_have_sizes()
    ensures receivers { ReceiverStreamsHaveSizes }
    ensures senders { SenderStreamsHaveSizes }
{}

/// Which frames of a session either end sends, that over a pair of deals they are the ends' streams, and that on the wire
/// stands as much as both streams have.
pub fn sessions_are_moves()
    ensures ends { EndsMove }
    ensures streams { SessionsHaveStreams }
    ensures sizes { WiresJoinStreams }
{}

/// What the receiver finds in the sender's lists is what is shown: in every setup over any columns, and for every pair
/// of deals, in the lists that its sender makes and in those that are read from its stream.
pub fn finds_shown()
    ensures setups { SetupsHitShown }
    ensures pairs { PairsFindShown }
{}

/// What a change of column sets does to each bit.
pub fn changes_bits()
    ensures { ChangesBits }
{}

/// A receiver's columns hide which of the placed sets of one count it has, over arbitrary column sets: the change of
/// the columns that the sender did not choose is its own inverse, keeps those that it chose, and gives another placed
/// set the same stream, so that every sender answers it alike; and whatever columns a sender has and gets, they come
/// from each placed set over just one pair of column sets. A sender's stream is that over its own columns.
pub fn sets_are_hidden()
    ensures hidden { SetsAreHidden }
    ensures over { StreamsAreOver }
{}

/// Of two lists of paired lines each line that is equal in both is shown, and each other line that is shown has equal
/// tags. What the receiver of a pair of deals finds in its sender's values is what is shown.
pub fn paired_lines_are_shown()
    ensures equal { ListsShowEqual }
    ensures found { PairsFindShownLines }
{}

/// A receiver's columns hide which of the lists of one count it has, over arbitrary column sets: the change of the
/// columns that the sender did not choose is its own inverse, keeps those that it chose, and gives another list the
/// same columns to send, so that every sender makes the same values; and whatever columns a sender has and gets, they
/// come from each list over just one pair of column sets.
pub fn paired_lines_are_hidden()
    ensures { ListsAreHidden }
{}
