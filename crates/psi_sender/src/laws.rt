//! Laws of a sender's end. Each function does nothing: its contract is the law.
ghost use Rattle.psi_sender.specs.Laws.{OwesByWhatCame, ServesHonestReceivers, ServesNothingElse, ServesStreams};

/// A receiver's stream is taken whole, whatever follows it, and the sender's stream is sent for it. Nothing else is
/// taken whole.
pub fn serves_streams()
    ensures streams { ServesStreams }
    ensures only { ServesNothingElse }
{}

/// The stream of a receiver with the other deal of the pair is taken whole, whatever its items are.
pub fn serves_honest_receivers()
    ensures { ServesHonestReceivers }
{}

/// What a sender sends is a front of a stream that depends on what came: of nothing before the receiver's hello, of
/// the sender's hello before the last column, and then of the sender's stream for that count and those columns.
pub fn owes_by_what_came()
    ensures { OwesByWhatCame }
{}
