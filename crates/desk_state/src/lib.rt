// The state of the whole: the services over the one catalogue, the links of the four clients, and the client that was served last.
#![tactic(auto)]

ghost use Rattle.std.specs.Prelude.{◌≡◌, ◌<◌};
ghost use Rattle.desk_slots.specs.Slots.{service_count, client_count};
ghost use Rattle.desk_state.specs.Desk.{link_at, service_at, account_in, started_service, started_desk, with_account, with_service};

// A service: its player, and what it owes to each of the four clients.
#[derive(Clone, Copy)]
pub struct Service {
    pub player: player_state::Player,
    pub accounts: [desk_client::Account; 4],
}

#[derive(Clone, Copy)]
pub struct Desk {
    pub services: [Service; 2],
    pub links: [desk_client::Link; 4],
    pub turn: u32,
}

// A service that nobody has asked for anything.
fn fresh_service(p: player_state::Player) -> Service
    ensures { result ≡ started_service p }
{
    let a = desk_client::blank_account();
    Service {
        player: p,
        accounts: [a; 4],
    }
}

// What start leaves, around fresh players.
#[tactic(auto, unfolding(crate::specs::Desk::started_desk))]
pub fn fresh_desk(generic: player_state::Player, named: player_state::Player) -> Desk
    ensures { result ≡ started_desk generic named }
{
    let l = desk_client::fresh_link();
    let a = fresh_service(generic);
    let b = fresh_service(named);
    Desk {
        services: [a, b],
        links: [l; 4],
        turn: desk_slots::CLIENTS - 1,
    }
}

pub fn service_at(d: Desk, service: u32) -> Service
    requires { service < service_count }
    ensures { result ≡ service_at d service }
{
    let services = d.services;
    let at = service as usize;
    services[at]
}

// The link of a client.
pub fn link_at(d: Desk, who: u32) -> desk_client::Link
    requires { who < client_count }
    ensures { result ≡ link_at d.links who }
{
    let links = d.links;
    let at = who as usize;
    links[at]
}

// The account of a client.
pub fn account_in(s: Service, who: u32) -> desk_client::Account
    requires { who < client_count }
    ensures { result ≡ account_in s who }
{
    let accounts = s.accounts;
    let at = who as usize;
    accounts[at]
}

// The service with another account of a client.
#[tactic(auto, unfolding(crate::specs::Desk::with_account))]
pub fn with_account(s: Service, who: u32, a: desk_client::Account) -> Service
    requires { who < client_count }
    ensures { result ≡ with_account who a s }
{
    let at = who as usize;
    let mut t = s;
    t.accounts[at] = a;
    t
}

#[tactic(auto, unfolding(crate::specs::Desk::with_service))]
pub fn with_service(d: Desk, service: u32, s: Service) -> Desk
    requires { service < service_count }
    ensures { result ≡ with_service service s d }
{
    let at = service as usize;
    let mut e = d;
    e.services[at] = s;
    e
}
