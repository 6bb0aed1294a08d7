//! A path is looked up by `matchit`, and a method read by `http`.

ghost use Rattle.std.specs.Prelude.{◌≡◌, ◌↔◌, IsTrue, IfOk};
ghost use Rattle.http_exchange.specs.Routes.{page_at, path_of, verb_name};
ghost use Rattle.http_exchange.specs.RouteRows.{the_routes};

use crate::page::{Page, Submission, Verb};
use base::Memory;
use http::Method;
use matchit::{InsertError, Router};
use std::alloc::Global;

/// The page of a path, if it has one.
pub(crate) fn page_at(alloc: Global, path: &str) -> Result<Option<Page>, Memory>
    ensures { IfOk result (λ page. page ≡ page_at path.now) }
{
    let router = all_routes(alloc)?;
    Ok(find(&router, path))
}

/// The routes.
fn all_routes(alloc: Global) -> Result<Router<Page>, Memory>
    ensures { IfOk result (λ router. router ≡ the_routes) }
{
    match insert_all(alloc) {
        Ok(router) => Ok(router),
        Err(_) => Err(Memory),
    }
}

fn insert_all(alloc: Global) -> Result<Router<Page>, InsertError>
    ensures { IfOk result (λ router. router ≡ the_routes) }
{
    let mut router = Router::new(alloc);
    router.insert("/tests", Page::Submit(Submission::Tests))?;
    router.insert("/rework", Page::Submit(Submission::Rework))?;
    router.insert("/release", Page::Submit(Submission::Release))?;
    router.insert("/scrap", Page::Submit(Submission::Scrap))?;
    router.insert("/units/{serial}", Page::Unit)?;
    router.insert("/report", Page::Report)?;
    Ok(router)
}

fn find(router: &Router<Page>, path: &str) -> Option<Page>
    requires { router.now ≡ the_routes }
    ensures { result ≡ page_at path.now }
{
    match router.at(path) {
        Ok(found) => Some(*found.value),
        Err(_) => None,
    }
}

/// The part of a target before its query.
pub(crate) fn path_of(target: &str) -> &str
    ensures { result.now ≡ path_of target.now }
{
    match target.split_once('?') {
        Some((path, _)) => path,
        None => target,
    }
}

/// Whether a method is this one. It takes no memory: a name that is one of ours needs none, and a longer one that would is
/// another method.
pub(crate) fn is_verb(alloc: Global, method: &[u8], verb: Verb) -> bool
    ensures { IsTrue result ↔ (method.now ≡ verb_name verb) }
{
    match Method::from_bytes(alloc, method) {
        Ok(method) => method.as_str() == verb.name(),
        Err(_) => false,
    }
}
