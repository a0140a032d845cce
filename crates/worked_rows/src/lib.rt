//! Worked rows: what the top call writes for workloads whose reports were computed by hand, and what it answers
//! where a call outside fails; what is written of reports that are judged, and what the events of a link tell.
#![tactic(auto)]

#[cfg(test)]
mod audits;
#[cfg(test)]
mod calls;
#[cfg(test)]
mod commands;
#[cfg(test)]
mod failing;
#[cfg(test)]
mod links;
#[cfg(test)]
mod tests;
