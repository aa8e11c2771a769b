ghost use Rattle.std.specs.Prelude.{◌≡◌, ◌++◌, option_copied, IfOk, OnOk};
ghost use Rattle.carte_book.specs.Book.{book_view, content};
ghost use Rattle.carte_note.specs.Lists.{finished_of};
ghost use Rattle.carte_sound.specs.Marks.{present};
ghost use Rattle.carte_rebuild.specs.declared.gather.Role.TheVariants.{Rules, Inputs};
ghost use Rattle.carte_rebuild.specs.Gathering.{beneath_made as beneath, beneath_ran as ran, brought, brought_by, finished_links, is_of as is_role, itself, links_in, own_digest as digest_of_own, own_links, picked as picked_by, picks, put_link, put_links, role_links};

use carte_book::{Book, Looked};
use carte_effect::Made;
use carte_note::{Finished, FinishedList};
use carte_value::{Digest, Link, Links, Name, NoMemory, Same, Seeded};
use indexmap::IndexMap;
use std::alloc::Global;

/// Of each name the digest of the link that came first.
type Gathered = IndexMap<Name, Digest, Seeded>;

/// What is gathered of what lies beneath a key.
#[derive(Clone, Copy, Debug, PartialEq, Eq)]
pub(crate) enum Role {
    /// The key and the rules beneath it, with the digests of their tasks.
    Rules,
    /// The inputs, with the digests of their values.
    Inputs,
}

/// What lies beneath a made key, each name once, where it comes first: of a key that ran itself and what its links bring, and
/// of a held key what the trace named that holds it.
pub(crate) fn beneath_made(
    alloc: Global,
    role: Role,
    book: &Book,
    before: &FinishedList,
    made: &Made,
) -> Result<Links, NoMemory>
    ensures { IfOk result (λ links. links ≡ beneath role (book_view book.now) before.now made.now) }
{
    match made {
        Made::Ran(_) => beneath_ran(alloc, role, book, before, made.key(), made.links()),
        Made::Reused(_) => picked(alloc, role, book, made.links()),
    }
}

fn beneath_ran(
    alloc: Global,
    role: Role,
    book: &Book,
    before: &FinishedList,
    key: &Name,
    links: &Links,
) -> Result<Links, NoMemory>
    ensures { IfOk result (λ all. all ≡ ran role (book_view book.now) before.now key.now links.now) }
{
    let mut gathered = Gathered::with_hasher(alloc, book.hasher());
    put_own(alloc, role, book, key, &mut gathered)?;
    put_all(alloc, role, book, before, links, &mut gathered)?;
    listed(alloc, gathered)
}

fn put_own(
    alloc: Global,
    role: Role,
    book: &Book,
    key: &Name,
    gathered: &mut Gathered,
) -> Result<(), NoMemory>
    ensures { OnOk result (gathered.new.entries ≡ put_links gathered.old.entries (own_links (digest_of_own role (book_view book.now) key.now) key.now)) }
{
    match own_digest(alloc, role, book, key)? {
        Some(digest) => put(alloc, key, digest, gathered),
        None => Ok(()),
    }
}

// The digest of the key's task, or of its value where it is an input.
fn own_digest(
    alloc: Global,
    role: Role,
    book: &Book,
    key: &Name,
) -> Result<Option<Digest>, NoMemory>
    ensures { IfOk result (λ digest. digest ≡ digest_of_own role (book_view book.now) key.now) }
{
    match role {
        Role::Rules => book.task_digest(alloc, key),
        Role::Inputs => Ok(input_digest(book, key)),
    }
}

fn input_digest(book: &Book, key: &Name) -> Option<Digest>
    ensures { result ≡ present (book_view book.now) key.now }
{
    match book.lookup(key) {
        Looked::Input(value) => Some(value.digest()),
        Looked::Rule(_) => None,
        Looked::None => None,
    }
}

fn put_all(
    alloc: Global,
    role: Role,
    book: &Book,
    before: &FinishedList,
    links: &Links,
    gathered: &mut Gathered,
) -> Result<(), NoMemory>
    ensures { OnOk result (gathered.new.entries ≡ put_links gathered.old.entries (brought_by role (book_view book.now) before.now links.now)) }
{
    for link in links.as_slice() {
        put_brought(alloc, role, book, before, link, gathered)?;
    }
    Ok(())
}

fn put_brought(
    alloc: Global,
    role: Role,
    book: &Book,
    before: &FinishedList,
    link: &Link,
    gathered: &mut Gathered,
) -> Result<(), NoMemory>
    ensures { OnOk result (gathered.new.entries ≡ put_links gathered.old.entries (brought role (content (book_view book.now) link.now.name) (finished_of before.now link.now.name) link.now)) }
{
    match book.lookup(&link.name) {
        Looked::Input(_) => put_input(alloc, role, link, gathered),
        Looked::Rule(_) => put_beneath(alloc, role, before.find(&link.name), gathered),
        Looked::None => Ok(()),
    }
}

fn put_input(
    alloc: Global,
    role: Role,
    link: &Link,
    gathered: &mut Gathered,
) -> Result<(), NoMemory>
    ensures { OnOk result (gathered.new.entries ≡ put_links gathered.old.entries (itself role link.now)) }
{
    match role {
        Role::Rules => Ok(()),
        Role::Inputs => put(alloc, &link.name, link.digest, gathered),
    }
}

fn put_beneath(
    alloc: Global,
    role: Role,
    finished: Option<&Finished>,
    gathered: &mut Gathered,
) -> Result<(), NoMemory>
    ensures { OnOk result (gathered.new.entries ≡ put_links gathered.old.entries (finished_links role (option_copied finished.entry))) }
{
    match finished {
        Some(finished) => put_each(alloc, links_of(role, finished), gathered),
        None => Ok(()),
    }
}

fn links_of(role: Role, finished: &Finished) -> &Links
    ensures { result.now ≡ role_links role finished.now }
{
    match role {
        Role::Rules => &finished.tasks,
        Role::Inputs => &finished.beneath,
    }
}

fn put_each(alloc: Global, links: &Links, gathered: &mut Gathered) -> Result<(), NoMemory>
    ensures { OnOk result (gathered.new.entries ≡ put_links gathered.old.entries links.now) }
{
    for link in links.as_slice() {
        put(alloc, &link.name, link.digest, gathered)?;
    }
    Ok(())
}

fn put(alloc: Global, name: &Name, digest: Digest, gathered: &mut Gathered) -> Result<(), NoMemory>
    ensures { OnOk result (gathered.new.entries ≡ put_link gathered.old.entries (record { name = name.now; digest = digest })) }
{
    if gathered.contains_key(name) {
        return Ok(());
    }
    gathered.insert(name.copy(alloc)?, digest)?;
    Ok(())
}

fn listed(alloc: Global, gathered: Gathered) -> Result<Links, NoMemory>
    ensures { IfOk result (λ links. links ≡ links_in gathered.entries) }
{
    let mut links = Links::new(alloc);
    for (name, digest) in gathered {
        links.push(Link { name, digest })?;
    }
    Ok(links)
}

// The links that are to names of this role.
fn picked(alloc: Global, role: Role, book: &Book, links: &Links) -> Result<Links, NoMemory>
    ensures { IfOk result (λ some. some ≡ picked_by role (book_view book.now) links.now) }
{
    let mut some = Links::new(alloc);
    for link in links.as_slice() {
        pick(alloc, role, book, link, &mut some)?;
    }
    Ok(some)
}

fn pick(
    alloc: Global,
    role: Role,
    book: &Book,
    link: &Link,
    some: &mut Links,
) -> Result<(), NoMemory>
    ensures { OnOk result (some.new ≡ some.old ++ picks role (content (book_view book.now) link.now.name) link.now) }
{
    if is_of(role, book, &link.name) {
        return some.push(link.same(alloc)?);
    }
    Ok(())
}

fn is_of(role: Role, book: &Book, name: &Name) -> bool
    ensures { result ≡ is_role role (content (book_view book.now) name.now) }
{
    match role {
        Role::Rules => is_rule(book, name),
        Role::Inputs => is_input(book, name),
    }
}

fn is_rule(book: &Book, name: &Name) -> bool
    ensures { result ≡ is_role Rules (content (book_view book.now) name.now) }
{
    match book.lookup(name) {
        Looked::Rule(_) => true,
        Looked::Input(_) => false,
        Looked::None => false,
    }
}

fn is_input(book: &Book, name: &Name) -> bool
    ensures { result ≡ is_role Inputs (content (book_view book.now) name.now) }
{
    match book.lookup(name) {
        Looked::Input(_) => true,
        Looked::Rule(_) => false,
        Looked::None => false,
    }
}
