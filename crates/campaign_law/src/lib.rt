//! What a campaign is: entries, their outcomes, the replay, what is sent, and the player machine, which
//! holds no world. The laws of what players are sent, of one session, of the worlds of a replay, of a client that
//! reads its lines and of what the machine is fed stand on functions.
#![tactic(auto)]

ghost use Rattle.campaign_law.specs.Feeding.{TracesFeed};
ghost use Rattle.campaign_law.specs.Law.{SentIsMachine, AgreeingSendAlike, NoLineEndIsSent, RefusedChangesLittle};
ghost use Rattle.campaign_law.specs.Client.{LinesTellViews, ClientHoldsView};
ghost use Rattle.campaign_law.specs.Worlds.{OpeningWorldFits, WorldsFit, MadeTokensAreNew, OpeningSceneHasTables, ScenesHaveTables, OpeningWorldIsWritten, WorldsAreWritten};
ghost use Rattle.campaign_law.specs.SessionLaws.{AcceptedJoinSeats, LeaveCloses, CutFrees, CutEndsSession, UncutDropsByLeave, JoinedSeatStays, LastingSessionIsHeld, HeldSessionLasts, SessionGrows, EndedSessionStays, EndedSessionWasTaken, TakensBoundSession, EntryQueuesFew, QueuedIsBounded};

mod answer;
mod entry;

pub use answer::Answer;
pub use entry::Entry;

/// The laws of what players are sent, over every opening world, every history and every player: it
/// is what the player machine prints, which holds no world; histories that agree for a player send
/// it the same lines; and no line to any seat holds an LF. A refused entry changes no more than its seat's count,
/// the queue by its reply, and the history.
pub fn sent_is_machine()
    ensures machine { SentIsMachine }
    ensures agreeing { AgreeingSendAlike }
    ensures one_line { NoLineEndIsSent }
    ensures refused { RefusedChangesLittle }
{}

/// The laws of one session, over every opening world and every history. An accepted Join begins one; a Leave closes its
/// seat, a Cut frees its Joined seat and changes nothing else, and nothing but a line, a Leave or a Cut of its own moves a Joined seat. While a session lasts its passes hold the seat, and its
/// lines are the seat's present ones. In a longer history it has the same lines and further ones behind them, and once its
/// seat was Free it doesn't change. Where it ends without a Leave or a Cut that drops lines, the number of lines taken is
/// the number of its lines. An entry queues for a seat three lines at most, and none where it counts as no line of its own seat;
/// so in a campaign of at most 33 seats no more than 1,622,016 lines are queued for a seat since its Join.
pub fn session_laws()
    ensures begins { AcceptedJoinSeats }
    ensures leaves { LeaveCloses }
    ensures cut { CutFrees }
    ensures joined { JoinedSeatStays }
    ensures held { LastingSessionIsHeld }
    ensures lasts { HeldSessionLasts }

    ensures grows { SessionGrows }
    ensures stays { EndedSessionStays }

    ensures taken { EndedSessionWasTaken }
    ensures bounded { TakensBoundSession }

    ensures cut_ends { CutEndsSession }
    ensures uncut { UncutDropsByLeave }

    ensures few { EntryQueuesFew }
    ensures queued { QueuedIsBounded }
{}

/// The laws of the worlds of a replay. A world that fits together opens to one that does, and so does each world after it: 1 to 33
/// seats, numbered by their places, of which all but the first are its scene's players, and each token's maker used its
/// tag. So a token that an accepted command makes is new. The parts of each scene fit together and its tables stay in order.
/// Names, sizes, keys and the texts of macros stay as a campaign text takes them.
pub fn worlds_fit()
    ensures opens { OpeningWorldFits }
    ensures always { WorldsFit }
    ensures new { MadeTokensAreNew }

    ensures opens_tables { OpeningSceneHasTables }
    ensures tables { ScenesHaveTables }

    ensures opens_written { OpeningWorldIsWritten }
    ensures written { WorldsAreWritten }
{}

/// The laws of a client that reads the lines of its seat, the game master's or a player's. Each line is a reply, a message, or tells the
/// whole view or the change from the view before. A client that takes the one, and applies the other to the view that it
/// holds, holds just what its seat is shown after each entry at which the seat is present.
pub fn client_laws()
    ensures lines { LinesTellViews }
    ensures holds { ClientHoldsView }
{}

/// The law of what a player machine is fed, over every history of a world that opens, fits together and has its tables: item by item,
/// a player's trace is what the player machine asks for.
pub fn traces_feed()
    ensures { TracesFeed }
{}
