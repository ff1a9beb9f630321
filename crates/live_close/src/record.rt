use hub::Hub;
use jup_client::Client;
use live_record::Note;
use ss_base::Seq;
use turn_book::Closed;

/// What a run leaves: the hub with its history, one client for each site, which has taken all, and what
/// each site noted, both in the order in which the sites were declared.
#[derive(Drop)]
pub struct LiveRecord {
    pub hub: Closed<Hub>,
    pub clients: Seq<Client>,
    pub notes: Seq<Seq<Note>>,
}
