//! What the turn of one party leaves as it was, so that what is proved of one part never sees the others.

ghost use Rattle.std.specs.Prelude.{ℕ, List, Option};
ghost use Rattle.far_base.specs.PlanView.{PlanView};
ghost use Rattle.far_base.specs.declared.packet.Message.{Message};
ghost use Rattle.far_base.specs.declared.packet.Packet.{Packet};
ghost use Rattle.far_model.specs.Clients.{ClientState};
ghost use Rattle.far_model.specs.Controller.{ControllerState};
ghost use Rattle.far_model.specs.Events.{client_turn, controller_turn, server_turn, stops, switch_turn};
ghost use Rattle.far_model.specs.Parties.{Turn};
ghost use Rattle.far_model.specs.Pass.{Passed, with_slot};
ghost use Rattle.far_model.specs.State.{State};
ghost use Rattle.far_model.specs.View.{SlotView, SwitchView};
ghost use Rattle.model_laws.specs.Untouched.{ClientsUntouched, ControllerUntouched};
ghost use Rattle.model_laws.specs.Untouched.{PassesUntouched, ServersUntouched, SwitchUntouched};
ghost use Rattle.model_laws.specs.Untouched.{OtherClientsUntouched, OtherServersUntouched, OtherSlotsUntouched};

/// A client's turn leaves the switch, the servers, the controller and the other clients.
pub fn client_turns()
    ensures { (s : State) (c : ℕ) (rest : List Message) (t : Turn ClientState)
        → SwitchUntouched s (client_turn s c rest t) × ServersUntouched s (client_turn s c rest t)
        × ControllerUntouched s (client_turn s c rest t) × OtherClientsUntouched s (client_turn s c rest t) c }
{}

/// A server's turn leaves the switch, the clients, the controller and the other servers.
pub fn server_turns()
    ensures { (s : State) (server : ℕ) (rest : List Message) (packet : Packet) (reply : Option Packet)
        → SwitchUntouched s (server_turn s server rest packet reply)
        × ClientsUntouched s (server_turn s server rest packet reply)
        × ControllerUntouched s (server_turn s server rest packet reply)
        × OtherServersUntouched s (server_turn s server rest packet reply) server }
{}

/// A pass of the switch leaves the clients, the servers and the controller.
pub fn switch_turns()
    ensures { (s : State) (rest : List Message) (packet : Packet) (p : Passed)
        → ClientsUntouched s (switch_turn s rest packet p) × ServersUntouched s (switch_turn s rest packet p)
        × ControllerUntouched s (switch_turn s rest packet p) }
{}

/// A turn of the controller leaves the switch, the clients and the servers.
pub fn controller_turns()
    ensures { (s : State) (rest : List Message) (t : Turn ControllerState)
        → SwitchUntouched s (controller_turn s rest t) × ClientsUntouched s (controller_turn s rest t)
        × ServersUntouched s (controller_turn s rest t) }
{}

/// A stop leaves the clients, the servers, the controller, and the counts of what has come to the switch.
pub fn stops_leave()
    ensures { (plan : PlanView) (s : State)
        → ClientsUntouched s (stops plan s) × ServersUntouched s (stops plan s) × ControllerUntouched s (stops plan s)
        × PassesUntouched s (stops plan s) }
{}

/// A slot that is set leaves the other slots and all else of the switch.
pub fn slots_are_set_alone()
    ensures { (v : SwitchView) (i : ℕ) (slot : SlotView) → OtherSlotsUntouched v (with_slot v i slot) i }
{}
