//! A running client, as one word of `serve` names it: `N=FOLDER`, or `N=FOLDER:RIGHTS`.
ghost use Rattle.std.specs.Prelude.{◌≡◌, ℕ, List, IfOk, MatchOption, codes, map};
ghost use Rattle.std.specs.List.{list_all, list_any};
ghost use Rattle.std.specs.Str.{bytes_eq};
ghost use Rattle.wh_client.specs.Clients.{GiveClients, GivesClient, GivesPlace, IsNumber, NamesRights, SpellsRights, count_rights, is_right, shares};

use std::alloc::{AllocError, Global};

/// Which commands a client has a right to.
#[derive(Clone, Copy, Debug, PartialEq, Eq)]
pub struct ClientRights {
    /// To hand in tasks.
    pub submit: bool,
    /// To ask for the token.
    pub token: bool,
    /// To let the clock tick.
    pub tick: bool,
    /// To replace a planner.
    pub replace: bool,
    /// To close the warehouse.
    pub close: bool,
    /// To stop the service.
    pub stop: bool,
}

/// A running client. It keeps a text of the word that named it.
#[derive(Clone, Copy, Debug, PartialEq, Eq)]
pub struct ClientOptions<'a> {
    /// Its number, 0 to 61.
    pub number: u32,
    /// The name of its folder, never empty.
    pub folder: &'a str,
    /// What it has a right to.
    pub rights: ClientRights,
}

// every command, and not the stop: who may do all of it to a warehouse need not end its service
const ALL: ClientRights = ClientRights {
    submit: true,
    token: true,
    tick: true,
    replace: true,
    close: true,
    stop: false,
};

const SUBMIT: ClientRights = ClientRights {
    submit: true,
    token: false,
    tick: false,
    replace: false,
    close: false,
    stop: false,
};

/// Whether the word names a right.
fn is_right(word: &str) -> bool
    ensures { result ≡ is_right word.now }
{
    word == "submit"
        || word == "token"
        || word == "tick"
        || word == "replace"
        || word == "close"
        || word == "stop"
}

/// Whether each word names a right.
fn are_rights(words: &[&str]) -> bool
    ensures { result ≡ list_all (λ w. is_right w.now) words.now }
{
    for word in words {
        if !is_right(word) {
            return false;
        }
    }
    true
}

/// How many rights there are.
fn count(rights: ClientRights) -> usize
    ensures { result ≡ count_rights rights }
{
    usize::from(rights.submit)
        + usize::from(rights.token)
        + usize::from(rights.tick)
        + usize::from(rights.replace)
        + usize::from(rights.close)
        + usize::from(rights.stop)
}

/// The rights that the words name.
fn rights_named(words: &[&str]) -> ClientRights
    ensures submit { result.submit ≡ list_any (λ w. bytes_eq w.now (codes "submit")) words.now }
    ensures token { result.token ≡ list_any (λ w. bytes_eq w.now (codes "token")) words.now }
    ensures tick { result.tick ≡ list_any (λ w. bytes_eq w.now (codes "tick")) words.now }
    ensures replace { result.replace ≡ list_any (λ w. bytes_eq w.now (codes "replace")) words.now }
    ensures close { result.close ≡ list_any (λ w. bytes_eq w.now (codes "close")) words.now }
    ensures stop { result.stop ≡ list_any (λ w. bytes_eq w.now (codes "stop")) words.now }
{
    ClientRights {
        submit: words.contains(&"submit"),
        token: words.contains(&"token"),
        tick: words.contains(&"tick"),
        replace: words.contains(&"replace"),
        close: words.contains(&"close"),
        stop: words.contains(&"stop"),
    }
}

/// The rights that the words name, where each names one, and none is named twice.
fn rights_of_words(words: &[&str]) -> Option<ClientRights>
    ensures { MatchOption result ((r : ClientRights) → ¬ NamesRights (map (λ w. w.now) words.now) r) (NamesRights (map (λ w. w.now) words.now)) }
{
    let rights = rights_named(words);
    if are_rights(words) && words.len() == count(rights) {
        Some(rights)
    } else {
        None
    }
}

/// The rights that a text names: `all`, which are those to every command, or some by commas.
fn rights_of(alloc: Global, text: &str) -> Result<Option<ClientRights>, AllocError>
    ensures { IfOk result (λ found. MatchOption found ((r : ClientRights) → ¬ SpellsRights text.now r) (SpellsRights text.now)) }
{
    if text == "all" {
        return Ok(Some(ALL));
    }
    let words: Vec<&str> = text.split(',').collect(alloc)?;
    Ok(rights_of_words(words.as_slice()))
}

/// The number that a text writes, where it is one of a client. Each has one spelling.
fn number_of(text: &str) -> Option<u32>
    ensures { MatchOption result ((n : ℕ) → ¬ IsNumber text.now n) (IsNumber text.now) }
{
    if text.starts_with('+') {
        return None;
    }
    if text.len() > 1 && text.starts_with('0') {
        return None;
    }
    match text.parse::<u32>() {
        Ok(number) if number <= 61 => Some(number),
        _ => None,
    }
}

/// The folder and the rights that follow the number.
fn folder_and_rights<'a>(
    alloc: Global,
    text: &'a str,
) -> Result<Option<(&'a str, ClientRights)>, AllocError>
    ensures { IfOk result (λ found. MatchOption found ((c : ClientOptions) → ¬ GivesPlace text.now c) (λ p. (c : ClientOptions) → c.folder ≡ p.0 → c.rights ≡ p.1 → GivesPlace text.now c)) }
{
    let (folder, rights) = match text.split_once(':') {
        Some((folder, words)) => (folder, rights_of(alloc, words)?),
        None => (text, Some(SUBMIT)),
    };
    match rights {
        Some(rights) if !folder.is_empty() => Ok(Some((folder, rights))),
        _ => Ok(None),
    }
}

/// The client that a word names, if it names one.
fn client_of<'a>(alloc: Global, text: &'a str) -> Result<Option<ClientOptions<'a>>, AllocError>
    ensures { IfOk result (λ found. MatchOption found ((c : ClientOptions) → ¬ GivesClient text.now c) (GivesClient text.now)) }
{
    let Some((number, place)) = text.split_once('=') else {
        return Ok(None);
    };
    let Some(number) = number_of(number) else {
        return Ok(None);
    };
    let Some((folder, rights)) = folder_and_rights(alloc, place)? else {
        return Ok(None);
    };
    Ok(Some(ClientOptions {
        number,
        folder,
        rights,
    }))
}

/// Whether one of the clients has this one's number or folder.
fn is_taken(clients: &[ClientOptions<'_>], client: &ClientOptions<'_>) -> bool
    ensures { result ≡ list_any (λ c. shares c client.now) clients.now }
{
    for other in clients {
        if other.number == client.number || other.folder == client.folder {
            return true;
        }
    }
    false
}

/// The clients that the words name, one for each, where each names one, and no two share a number or a folder.
pub fn clients_of<'a>(
    alloc: Global,
    texts: &[&'a str],
) -> Result<Option<Vec<ClientOptions<'a>>>, AllocError>
    ensures { IfOk result (λ found. MatchOption found ((cs : List ClientOptions) → ¬ GiveClients (map (λ t. t.now) texts.now) cs) (λ clients. GiveClients (map (λ t. t.now) texts.now) clients.items)) }
{
    let mut clients = Vec::new(alloc);
    for text in texts {
        let Some(client) = client_of(alloc, text)? else {
            return Ok(None);
        };
        if is_taken(clients.as_slice(), &client) {
            return Ok(None);
        }
        clients.push(client)?;
    }
    Ok(Some(clients))
}
