//! The domains of the components: the least component whose domain is not there.
ghost use Rattle.std.specs.Prelude.{◌≡◌, ◌≤◌, IfOk, length, not, position};
ghost use Rattle.toml.specs.View.{table_view};
ghost use Rattle.machine_desc.specs.Description.{is_below, written_domains, domain_refusal};
ghost use Rattle.machine_desc.specs.Answers.{Answers, passed_unless};

use crate::document::{integer_at, integers_at, natural};
use crate::{BadMachine, MachineFail};
use std::alloc::{AllocError, Global};
use toml::Table;

/// Each component is in a domain that is there, or the least that is not.
#[tactic(auto, unfolding(crate::specs::Description::domain_refusal))]
pub(crate) fn check_domains(alloc: Global, document: &Table) -> Result<(), MachineFail>
    requires { length (written_domains (table_view document.now)) ≤ 80 }
    ensures { Answers result (passed_unless (domain_refusal (table_view document.now))) }
{
    let count = integer_at(document, "domains", "count");
    let domains = written_domains(alloc, document)?;
    match first_outside(count, &domains) {
        Some(component) => Err(MachineFail::Bad(BadMachine::Domain {
            component: component as u16,
        })),
        None => Ok(()),
    }
}

/// The domains of all components, of the banks and then of the controllers.
#[tactic(auto, unfolding(crate::specs::Description::written_domains))]
fn written_domains(alloc: Global, document: &Table) -> Result<Vec<i64>, AllocError>
    ensures { IfOk result (λ v. v.items ≡ written_domains (table_view document.now)) }
{
    let mut domains = integers_at(alloc, document, "domains", "banks")?;
    domains.extend_from_slice(&integers_at(alloc, document, "domains", "controllers")?)?;
    Ok(domains)
}

/// The first index of a number that is not below the count.
fn first_outside(count: u64, domains: &[i64]) -> Option<usize>
    ensures { result ≡ position (λ domain. not (is_below count domain)) domains.now }
{
    domains.iter().position(|domain| !is_below(count, *domain))
}

/// The integer is a number from 0 to below the count.
fn is_below(count: u64, integer: i64) -> bool
    ensures { result ≡ is_below count integer }
{
    integer >= 0 && natural(integer) < count
}
