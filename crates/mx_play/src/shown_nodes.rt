//! What `show` prints of the nodes.

ghost use Rattle.std.specs.Prelude.{◌≡◌, ◌++◌, length, string_bytes, OnOk, Some, None};
ghost use Rattle.mx_play.specs.Views.{node_shown, standing_lines};

use crate::session::SessionSetting;
use mx_driver::node_at;
use mx_format::{add_facts_line, add_member_line};
use mx_knowledge::Knowledge;
use mx_member::Member;
use mx_network::Cluster;
use mx_nodelaws::Exclusion;
use mx_stamps::NodeId;
use std::alloc::AllocError;

pub(crate) fn add_standing<C: Exclusion + Knowledge>(
    setting: &SessionSetting<'_, C>,
    to: &Option<NodeId>,
    cluster: &Cluster<C>,
    text: &mut String,
) -> Result<(), AllocError>
    requires { length cluster.now.members ≡ length setting.now.plan.now.nodes }
    ensures { OnOk result (string_bytes text.new ≡ string_bytes text.old
        ++ standing_lines C.core C.knows setting.now.plan.now to.now cluster.now) }
{
    match to {
        Some(node) => add_one(setting, *node, cluster, text),
        None => add_each(setting, cluster, text),
    }
}

fn add_each<C: Exclusion + Knowledge>(
    setting: &SessionSetting<'_, C>,
    cluster: &Cluster<C>,
    text: &mut String,
) -> Result<(), AllocError>
    requires { length cluster.now.members ≡ length setting.now.plan.now.nodes }
    ensures { OnOk result (string_bytes text.new ≡ string_bytes text.old
        ++ standing_lines C.core C.knows setting.now.plan.now None cluster.now) }
{
    for (index, member) in cluster.members().iter().enumerate() {
        add_shown(setting, node_at(setting.plan, index), member, text)?;
    }
    Ok(())
}

fn add_shown<C: Exclusion + Knowledge>(
    setting: &SessionSetting<'_, C>,
    node: NodeId,
    member: &Member<C>,
    text: &mut String,
) -> Result<(), AllocError>
    ensures { OnOk result (string_bytes text.new ≡ string_bytes text.old
        ++ node_shown C.core C.knows setting.now.plan.now node member.now) }
{
    add_member_line(setting.plan, node, member, text)?;
    let facts = member.core().facts(setting.alloc)?;
    add_facts_line(setting.plan, &facts, text)
}

fn add_one<C: Exclusion + Knowledge>(
    setting: &SessionSetting<'_, C>,
    node: NodeId,
    cluster: &Cluster<C>,
    text: &mut String,
) -> Result<(), AllocError>
    ensures { OnOk result (string_bytes text.new ≡ string_bytes text.old
        ++ standing_lines C.core C.knows setting.now.plan.now (Some node) cluster.now) }
{
    match cluster.member(node) {
        Some(member) => add_shown(setting, node, member, text),
        None => Ok(()),
    }
}
