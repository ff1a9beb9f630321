use jup_client::Client;
use jup_server::Server;
use ss_base::Seq;

/// The server and the clients that a run leaves: one client for each site, in the order in which the
/// sites were declared.
#[derive(Debug, Drop)]
pub struct Room {
    pub server: Server,
    pub clients: Seq<Client>,
}
