//! The pattern of each resource.

ghost use Rattle.std.specs.Prelude.{◌≡◌, Ok, Err, OnOk, IfOk, [], ◌++◌};
ghost use Rattle.bsp_routes.specs.Rows.{add, office_rows, agent_rows, airline_rows, routes};

use crate::resource::Resource;
use bsp_fields::NoRoom;
use matchit::Router;
use std::alloc::Global;

fn put(router: &mut Router<Resource>, pattern: &str, resource: Resource) -> Result<(), NoRoom>
    ensures { OnOk result (router.new ≡ add pattern.now resource router.old) }
{
    let Ok(()) = router.insert(pattern, resource) else {
        return Err(NoRoom);
    };
    Ok(())
}

fn put_office(router: &mut Router<Resource>) -> Result<(), NoRoom>
    ensures { OnOk result (router.new ≡ office_rows router.old) }
{
    put(router, "/office/plan", Resource::Plan)?;
    put(router, "/office/day", Resource::Day)?;
    put(router, "/office/agents", Resource::Agents)?;
    put(router, "/office/airlines", Resource::Airlines)?;
    put(router, "/office/stock/allot", Resource::Allot)?;
    put(router, "/office/stock/withdraw", Resource::Withdraw)?;
    put(router, "/office/ret", Resource::OfficeRet)?;
    put(router, "/office/close", Resource::Close)?;
    put(router, "/office/settlement/{period}", Resource::Settlement)
}

fn put_agents(router: &mut Router<Resource>) -> Result<(), NoRoom>
    ensures { OnOk result (router.new ≡ agent_rows router.old) }
{
    put(router, "/agents/{agent}/ret", Resource::AgentRet)?;
    put(
        router,
        "/agents/{agent}/documents/{number}",
        Resource::Document,
    )?;
    put(router, "/agents/{agent}/periods/{period}", Resource::Period)?;
    put(router, "/agents/{agent}/stock", Resource::Stock)?;
    put(router, "/agents/{agent}/memos", Resource::AgentMemos)?;
    put(router, "/agents/{agent}/memos/dispute", Resource::Dispute)?;
    put(router, "/agents/{agent}/memos/agree", Resource::Agree)?;
    put(
        router,
        "/agents/{agent}/statements/{period}",
        Resource::Statement,
    )
}

fn put_airlines(router: &mut Router<Resource>) -> Result<(), NoRoom>
    ensures { OnOk result (router.new ≡ airline_rows router.old) }
{
    put(router, "/airlines/{airline}/memos", Resource::AirlineMemos)?;
    put(router, "/airlines/{airline}/memos/uphold", Resource::Uphold)?;
    put(
        router,
        "/airlines/{airline}/memos/withdraw",
        Resource::WithdrawMemo,
    )?;
    put(router, "/airlines/{airline}/memos/reduce", Resource::Reduce)?;
    put(router, "/airlines/{airline}/hot/{period}", Resource::Hot)
}

/// A router with the pattern of each resource.
pub fn all_patterns(alloc: Global) -> Result<Router<Resource>, NoRoom>
    ensures { IfOk result (λ router. router ≡ routes) }
{
    let mut router = Router::new(alloc);
    put_office(&mut router)?;
    put_agents(&mut router)?;
    put_airlines(&mut router)?;
    Ok(router)
}
