//! Laws of a receiver's end. Each function does nothing: its contract is the law.
ghost use Rattle.psi_receiver.specs.Laws.{HearsHonestSenders, HearsNothingElse, HearsStreams, SendsItsStream};

/// A sender's stream is taken whole, whatever follows it; the receiver's stream is sent for it, and both stand woven on
/// the wire. Nothing else is taken whole.
pub fn hears_streams()
    ensures streams { HearsStreams }
    ensures only { HearsNothingElse }
{}

/// The stream of a sender with the other deal of the pair is taken whole, whatever its items are.
pub fn hears_honest_senders()
    ensures { HearsHonestSenders }
{}

/// What a receiver sends is a front of its stream, whatever the peer sends and wherever the session ends.
pub fn sends_its_stream()
    ensures { SendsItsStream }
{}
